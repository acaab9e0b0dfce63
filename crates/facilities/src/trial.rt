// A trial: choices taken one after the other, and given back from the last.
ghost use Rattle.std.specs.Prelude.{◌≡◌, ℕ, ◌<◌, ◌≤◌, List, [], ◌++◌, length};
ghost use Rattle.facilities.specs.Trials.{most_levels, most_choices, Took, Gave};

pub(crate) trait Trial {
    // What stays while choices come and go.
    type Problem;

    ghost problem: { Self → Self.Problem };

    // The choices taken so far, in order.
    ghost taken: { Self → List ℕ };

    // A problem has `levels` choices to make, each one of `choices`, and says which lists of them are allowed.
    ghost levels: { Self.Problem → ℕ };

    ghost choices: { Self.Problem → ℕ };

    ghost allowed: { Self.Problem → List ℕ → Type 0 };

    fn depth(&self) -> usize
        ensures value { result ≡ levels (problem self.now) }
        ensures bound { result ≤ most_levels };

    fn width(&self) -> u16
        ensures value { result ≡ choices (problem self.now) }
        ensures bound { result ≤ most_choices };

    // Takes the choice, or leaves everything as it is where the longer list is not allowed.
    fn take(&mut self, choice: u16) -> bool
        requires room { length (taken self.old) < levels (problem self.old) }
        requires within { choice < choices (problem self.old) }
        ensures same { problem self.new ≡ problem self.old }
        ensures took { Took (allowed (problem self.old)) (taken self.old) choice result (taken self.new) };

    // Gives the last choice back.
    fn undo(&mut self)
        requires some { 0 < length (taken self.old) }
        ensures same { problem self.new ≡ problem self.old }
        ensures gave { Gave (taken self.old) (taken self.new) };

    ghost none: { (p : Self.Problem) → allowed p [] };

    ghost fronts: { (p : Self.Problem) (xs ys : List ℕ) → allowed p (xs ++ ys) → allowed p xs };
}
