// How a call was refused, to stand in a table.
ghost use Rattle.std.specs.Prelude.{◌≡◌};
ghost use Rattle.checks.specs.Answers.{refused_with};

use jobs::refusal::Refusal;

// The number of the refusal, if there is one.
pub fn number_of<T: Drop>(answer: Result<T, Refusal>) -> Option<u8>
    ensures { result ≡ refused_with answer }
{
    match answer {
        Ok(_) => None,
        Err(refusal) => Some(refusal.number()),
    }
}
