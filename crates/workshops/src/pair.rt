// Two workshops as one: the places of the first, then those of the second.
ghost use Rattle.std.specs.Prelude.{◌≡◌};
ghost use Rattle.workshops.specs.Pairs.{pair};
ghost use Rattle.workshops.specs.PairLaws.{pair_lawful};

use crate::reply::Reply;
use crate::workshop::Workshop;
use jobs::refusal::Refusal;
use jobs::set::JobSet;

#[derive(Drop)]
pub struct Pair<V, W> {
    first: V,
    second: W,
}

impl<V: Workshop, W: Workshop> Pair<V, W> {
    pub fn new(first: V, second: W) -> Self
        ensures first { result.first ≡ first }
        ensures second { result.second ≡ second }
        ensures sound { V.Workshop.meaning.invariant first → W.Workshop.meaning.invariant second → (pair V.Workshop.meaning W.Workshop.meaning).invariant result }
    {
        Pair { first, second }
    }
}

impl<V: Workshop, W: Workshop> Workshop for Pair<V, W> {
    ghost meaning = { pair V.Workshop.meaning W.Workshop.meaning };

    ghost lawful = { pair_lawful V.Workshop.meaning W.Workshop.meaning V.Workshop.lawful W.Workshop.lawful };

    fn count(&self) -> u8 {
        self.first.count().saturating_add(self.second.count())
    }

    fn verdict(&mut self, place: u8, set: JobSet) -> Result<Reply, Refusal> {
        let before = self.first.count();
        if place >= before.saturating_add(self.second.count()) {
            return Err(Refusal::NoSuchPlace);
        }
        let reply = if place < before {
            self.first.verdict(place, set)?
        } else {
            self.second.verdict(place - before, set)?
        };
        Ok(reply.map_err(|fault| fault.raised(place)))
    }

    fn grant(&mut self, amount: u16) {
        self.first.grant(amount);
        self.second.grant(amount);
    }
}
