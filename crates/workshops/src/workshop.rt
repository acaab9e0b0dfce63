// A workshop: a count of places, a family of job sets for each place, and a stance towards each question.
ghost use Rattle.std.specs.Prelude.{◌≡◌};
ghost use Rattle.workshops.specs.Workshops.{Meaning, Lawful};
ghost use Rattle.workshops.specs.Verdicts.{Verdict, Grant};

use crate::reply::Reply;
use jobs::refusal::Refusal;
use jobs::set::JobSet;

pub trait Workshop {
    // Its count, its families, its stance, what both calls do to it, and what it keeps true.
    ghost meaning: { Meaning Self };

    // How many places there are. Their numbers are 0 to count - 1.
    fn count(&self) -> u8
        ensures { result ≡ meaning.count self.now };

    // Whether the place can schedule the set. Place and set are two numbers wherever they go, as in this published call.
    fn verdict(&mut self, place: u8, set: JobSet) -> Result<Reply, Refusal>
        ensures { Verdict meaning self.old place set result self.new };

    // Allows so many answers more, in each layer that counts them.
    fn grant(&mut self, amount: u16)
        ensures { Grant meaning self.old amount self.new };

    ghost lawful: { Lawful meaning };
}
