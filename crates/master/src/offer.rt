// What one job costs at each place, and where it may not go.
ghost use Rattle.std.specs.Prelude.{◌≡◌, ℕ, ◌<◌, ◌≤◌, false, length, Some, slice_set};
ghost use Rattle.std.specs.List.{slice_get};
ghost use Rattle.master.specs.Refused.{most_places, top_price};

// How many places there are at most. Their numbers are 0 to PLACES - 1.
pub const PLACES: usize = 8;

// The most that a price can be.
pub const TOP_PRICE: u32 = 1_000_000;

// The terms of one place.
#[derive(Clone, Copy)]
pub struct Terms {
    pub price: u32,
    pub barred: bool,
    ghost low: { price ≤ top_price },
}

#[derive(Clone, Copy)]
pub struct Offer {
    terms: [Terms; PLACES],
    ghost wide: { length terms ≡ most_places },
}

impl Offer {
    ghost use Rattle.master.specs.Tariffs.{from_terms};

    // At every place for nothing.
    pub(crate) fn free() -> Offer
        ensures prices { (place : ℕ) → from_terms (λ m. m.price) 0 (slice_get result.terms place) ≡ 0 }
        ensures bars { (place : ℕ) → from_terms (λ m. m.barred) false (slice_get result.terms place) ≡ false }
    {
        let free = Terms {
            price: 0,
            barred: false,
        };
        Offer {
            terms: [free; PLACES],
        }
    }

    // The terms of one place. What has an invariant cannot be reached into from outside.
    pub(crate) fn at(&self, place: usize) -> Terms
        requires { place < most_places }
        ensures { slice_get self.now.terms place ≡ Some result }
    {
        self.terms[place]
    }

    // The same with other terms at one place.
    pub(crate) fn with(self, place: usize, terms: Terms) -> Offer
        requires { place < most_places }
        ensures { result.terms ≡ slice_set self.terms place terms }
    {
        let mut all = self.terms;
        all[place] = terms;
        Offer { terms: all }
    }
}
