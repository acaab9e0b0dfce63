// The jobs at each place.
ghost use Rattle.std.specs.Prelude.{◌≡◌, length};
ghost use Rattle.master.specs.Refused.{most_places};

use crate::offer::PLACES;
use jobs::set::JobSet;

pub mod calls;

#[derive(Drop)]
pub struct Groups {
    sets: [JobSet; PLACES],
    ghost wide: { length sets ≡ most_places },
}
