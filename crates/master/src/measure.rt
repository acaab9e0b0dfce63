// How two costs become one.
ghost use Rattle.std.specs.Prelude.{◌≡◌, ℕ, ◌^◌, ◌<◌, ◌≤◌};
ghost use Rattle.master.specs.Measures.{held_sum, worse};
ghost use Rattle.std.proofs.Common.{rules};

pub trait Measure {
    // What two costs come to together.
    ghost joins: { Self → ℕ → ℕ → ℕ };

    fn join(&self, a: u32, b: u32) -> u32
        ensures { result ≡ joins self.now a b };

    ghost fits: { (m : Self) (a b : ℕ) → a < 2 ^ 32 → b < 2 ^ 32 → joins m a b < 2 ^ 32 };

    ghost zeroleft: { (m : Self) (a : ℕ) → a < 2 ^ 32 → joins m 0 a ≡ a };

    ghost zeroright: { (m : Self) (a : ℕ) → a < 2 ^ 32 → joins m a 0 ≡ a };

    ghost regroups: { (m : Self) (a b c : ℕ) → a < 2 ^ 32 → b < 2 ^ 32 → c < 2 ^ 32 → joins m (joins m a b) c ≡ joins m a (joins m b c) };

    ghost grows: { (m : Self) (a b c d : ℕ) → a ≤ b → c ≤ d → b < 2 ^ 32 → d < 2 ^ 32 → joins m a c ≤ joins m b d };
}

// Costs add up, held at the largest number.
#[derive(Clone, Copy)]
pub struct Sum {}

// The largest cost counts.
#[derive(Clone, Copy)]
pub struct Worst {}

// Each measure shows the laws of its own join, though the check finds all of them alone.
impl Measure for Sum {
    ghost joins = { λ _. held_sum };

    ghost fits = { Prim.search rules };

    ghost zeroleft = { Prim.search rules };

    ghost zeroright = { Prim.search rules };

    ghost regroups = { Prim.search rules };

    ghost grows = { Prim.search rules };

    fn join(&self, a: u32, b: u32) -> u32 {
        a.saturating_add(b)
    }
}

impl Measure for Worst {
    ghost joins = { λ _. worse };

    ghost fits = { Prim.search rules };

    ghost zeroleft = { Prim.search rules };

    ghost zeroright = { Prim.search rules };

    ghost regroups = { Prim.search rules };

    ghost grows = { Prim.search rules };

    fn join(&self, a: u32, b: u32) -> u32 {
        a.max(b)
    }
}
