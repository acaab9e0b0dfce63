// The refusals of all calls, each with its number and its words.
ghost use Rattle.std.specs.Prelude.{◌≡◌, ◌++◌, Some, codes, decimal};
ghost use Rattle.jobs.specs.Refusals.{number, wording};

use std::error::Error;
use std::fmt;

#[derive(Clone, Copy, PartialEq, Eq, Debug)]
pub enum Refusal {
    JobsOutOfRange,
    PlacesOutOfRange,
    SupplyOutOfRange,
    NoSuchJob,
    NoSuchPlace,
    BadRow,
    AmountTooLarge,
    RoundsUsedUp,
    NotPending,
    BufferTooShort,
}

impl Refusal {
    // The number by which users know the refusal.
    pub fn number(self) -> u8
        ensures { result ≡ number self }
    {
        match self {
            Refusal::JobsOutOfRange => 1,
            Refusal::PlacesOutOfRange => 2,
            Refusal::SupplyOutOfRange => 3,
            Refusal::NoSuchJob => 4,
            Refusal::NoSuchPlace => 5,
            Refusal::BadRow => 6,
            Refusal::AmountTooLarge => 7,
            Refusal::RoundsUsedUp => 8,
            Refusal::NotPending => 9,
            Refusal::BufferTooShort => 10,
        }
    }

    // The refusal in words, to print.
    pub fn words(self) -> &'static str
        ensures { result.now ≡ wording self }
    {
        match self {
            Refusal::JobsOutOfRange => "the number of jobs is not 1 to 16",
            Refusal::PlacesOutOfRange => "the number of places is not 1 to 8",
            Refusal::SupplyOutOfRange => "the supply is not 1 to 255",
            Refusal::NoSuchJob => "no such job",
            Refusal::NoSuchPlace => "no such place",
            Refusal::BadRow => "the row's numbers do not go together",
            Refusal::AmountTooLarge => "the amount is above 1000000",
            Refusal::RoundsUsedUp => "all 65535 rounds are used up",
            Refusal::NotPending => "no such proposal is pending",
            Refusal::BufferTooShort => "the buffer is too short for a sheet",
        }
    }
}

impl fmt::Display for Refusal {
    ghost output = { λ r. Some (decimal (number r) ++ codes ": " ++ wording r) };

    fn fmt<W: fmt::Write>(&self, f: &mut fmt::Formatter<W>) -> fmt::Result {
        let number = self.number();
        let words = self.words();
        write!(f, "{number}: {words}")
    }
}

impl Error for Refusal {}
