// A workshop that answers no question: it stops at each, with the cause and the depth that it was made with.
ghost use Rattle.std.specs.Prelude.{◌≤◌};

pub mod calls;

#[derive(Clone, Copy)]
pub struct Closed {
    places: u8,
    cause: u8,
    depth: u8,
    ghost bytes: { (places ≤ 255) × (cause ≤ 255) × (depth ≤ 255) },
}
