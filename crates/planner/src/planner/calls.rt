// Making a planner, its prices, bars and grants, and its proposals.
ghost use Rattle.std.specs.Prelude.{◌≡◌, ℕ, [], map};
ghost use Rattle.std.specs.Fn.{FnOnceReturnsAtMut};
ghost use Rattle.std.specs.List.{slice_get};
ghost use Rattle.jobs.specs.Refusals.{Answered};
ghost use Rattle.master.specs.Cuts.{shown};
ghost use Rattle.planner.specs.Calls.{Price, Bar, Grant, Propose};
ghost use Rattle.planner.specs.Laws.{Runs};
ghost use Rattle.planner.specs.Promises.{Serves, Sized, Reprices};
ghost use Rattle.planner.specs.States.{fresh};
ghost use Rattle.planner.specs.Steps.{sizes_refusal};
ghost use Rattle.planner.specs.Views.{state, done, proposing};

use crate::answers::Proposal;
use crate::planner::{LAST_ROUND, Planner};
use jobs::refusal::Refusal;
use jobs::set::JobSet;
use master::cheapest::cheapest;
use master::measure::Measure;
use master::table::CutTable;
use master::tariff::Tariff;
use master::tariff::calls::check_sizes;
use workshops::workshop::Workshop;

impl<W: Workshop, J: Measure> Planner<W, J> {
    // A planner for so many jobs, and the places of the workshop. Where there are too few or too many of
    // either, it is idle, and refuses every call.
    pub fn new(jobs: u32, measure: J, workshop: W) -> Self
        ensures made { state result ≡ fresh workshop measure jobs }
        ensures law { Runs W.Workshop.meaning J.Measure.joins workshop measure jobs [] (state result) }
    {
        Planner {
            workshop,
            measure,
            jobs,
            tariff: Tariff::full(),
            cuts: CutTable::new(),
            pending: None,
            round: 0,
        }
    }

    // Refuses every call of an idle planner.
    pub(crate) fn check_sizes(&self) -> Result<(), Refusal>
        ensures { Answered (sizes_refusal W.Workshop.meaning (state self.now)) result (λ _. Unit {0}) }
    {
        check_sizes(self.jobs, self.workshop.count())
    }

    // The tariff at the planner's sizes; an idle planner has none.
    fn sized(&self) -> Result<Tariff, Refusal>
        ensures { Answered (sizes_refusal W.Workshop.meaning (state self.now)) result (Sized W.Workshop.meaning self.now) }
    {
        self.tariff.sized(self.jobs, self.workshop.count())
    }

    // Changes the tariff at the planner's sizes, and drops the pending proposal.
    fn reprice<F: FnOnce(&mut Tariff) -> Result<(), Refusal>>(
        &mut self,
        set: F,
    ) -> Result<(), Refusal>
        requires { F.IsAlwaysCallable set }
        ensures { Reprices W.Workshop.meaning (FnOnceReturnsAtMut F.FnOnce set) self.old result self.new }
    {
        let mut tariff = self.sized()?;
        set(&mut tariff)?;
        self.tariff = tariff;
        self.pending = None;
        Ok(())
    }

    // Sets the price of a pair of job and place, and drops the pending proposal.
    pub fn price(&mut self, job: u32, place: u32, amount: u32) -> Result<(), Refusal>
        ensures { Serves W.Workshop.meaning J.Measure.joins self.old (Price job place amount) (done result) self.new }
    {
        self.reprice(|tariff| tariff.set_price(job, place, amount))
    }

    // Bars a pair of job and place, or permits it again, and drops the pending proposal.
    pub fn bar(&mut self, job: u32, place: u32, barred: bool) -> Result<(), Refusal>
        ensures { Serves W.Workshop.meaning J.Measure.joins self.old (Bar job place barred) (done result) self.new }
    {
        self.reprice(|tariff| tariff.set_bar(job, place, barred))
    }

    // Passes the amount to the workshop.
    pub fn grant(&mut self, amount: u16) -> Result<(), Refusal>
        ensures { Serves W.Workshop.meaning J.Measure.joins self.old (Grant amount) (done result) self.new }
    {
        self.check_sizes()?;
        self.workshop.grant(amount);
        Ok(())
    }

    // The cheapest permitted assignment that obeys the cuts; it is pending then. Or nothing.
    pub fn propose(&mut self) -> Result<Option<Proposal>, Refusal>
        ensures { Serves W.Workshop.meaning J.Measure.joins self.old Propose (proposing result) self.new }
    {
        let tariff = self.sized()?;
        if self.round == LAST_ROUND {
            return Err(Refusal::RoundsUsedUp);
        }
        let found = cheapest(&self.measure, &tariff, &self.cuts);
        self.pending = found;
        Ok(found.map(|priced| Proposal { priced }))
    }

    // The place and the set of cut i, or nothing if fewer are held.
    pub fn cut(&self, i: usize) -> Option<(u8, JobSet)>
        ensures { result ≡ slice_get (map shown (state self.now).cuts) i }
    {
        self.cuts.cut(i)
    }
}
