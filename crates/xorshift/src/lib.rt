// Numbers that look random and are the same in every run: Marsaglia's xorshift on 32 bits.
#![tactic(auto)]

ghost use Rattle.std.specs.Prelude.{◌≡◌, ℕ, ◌<◌};
ghost use Rattle.xorshift.specs.Xorshift.{xorshift, below};

#[derive(Drop)]
pub struct Random {
    state: u32,
}

impl Random {
    // The numbers that follow this one.
    pub fn new(seed: u32) -> Random
        ensures { result.state ≡ seed }
    {
        Random { state: seed }
    }

    // The next number.
    #[tactic(auto, unfolding(crate::specs::Xorshift::xorshift))]
    fn next(&mut self) -> u32
        ensures value { result ≡ xorshift self.old.state }
        ensures state { self.new.state ≡ xorshift self.old.state }
    {
        let mut state = self.state;
        state ^= state << 13;
        state ^= state >> 17;
        state ^= state << 5;
        self.state = state;
        state
    }

    // The next number, brought below the bound; 0 where no number is below it.
    pub fn below(&mut self, bound: u32) -> u32
        ensures value { result ≡ below (xorshift self.old.state) bound }
        ensures state { self.new.state ≡ xorshift self.old.state }
        ensures less { 0 < bound → result < bound }
    {
        self.next().checked_rem(bound).unwrap_or(0)
    }
}
