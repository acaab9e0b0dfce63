// The cheapest permitted assignment that obeys the cuts.
ghost use Rattle.std.specs.Prelude.{◌≡◌, ℕ, ◌<◌, take, MatchBool};
ghost use Rattle.master.specs.Cuts.{Obeys};
ghost use Rattle.master.specs.Master.{Finds, OneBest};
ghost use Rattle.master.specs.Rows.{Group};
ghost use Rattle.master.specs.Tables.{held};
ghost use Rattle.master.specs.Tariffs.{job_count, place_count, price_of, barred_in};
ghost use Rattle.master.specs.Walks.{Matched, Cheaper, Worth, Worthless, Walking, left_in, FindsIn, group_at};

use crate::measure::Measure;
use crate::pair::Pair;
use crate::priced::Priced;
use crate::table::CutTable;
use crate::tariff::Tariff;
use crate::walk::Walk;

// Whether what was found costs no more than the total.
fn is_matched(best: &Option<Priced>, total: u32) -> bool
    ensures { MatchBool result (Matched total best.now) (Cheaper total best.now) }
{
    best.is_some_and(|found| found.cost <= total)
}

// Whether the pair may lead to a better row than what was found.
fn is_worth(walk: &Walk, pair: Pair, tariff: &Tariff, cuts: &CutTable, total: u32) -> bool
    requires grouped { Group (take pair.job walk.now.row) pair.place (group_at walk.now.groups pair.place) }
    requires obeying { Obeys (take pair.job walk.now.row) (held cuts.now) }
    ensures { MatchBool result (Worth tariff.now cuts.now walk.now pair.job pair.place total) (Worthless tariff.now cuts.now walk.now pair.job pair.place total) }
{
    if tariff.barred_at(pair) {
        return false;
    }
    if is_matched(&walk.best, total) {
        return false;
    }
    let group = walk.groups.at(pair.place as usize);
    cuts.allows(pair.job as u32, pair.place, group)
}

// One turn of the search; false when it is over. What it reads is passed on as it came, to two calls.
fn turn<M: Measure>(walk: &mut Walk, measure: &M, tariff: &Tariff, cuts: &CutTable) -> bool
    requires { Walking (M.Measure.joins measure.now) tariff.now cuts.now walk.old }
    ensures { MatchBool result
        (Walking (M.Measure.joins measure.now) tariff.now cuts.now walk.new × (left_in tariff.now walk.new < left_in tariff.now walk.old))
        (FindsIn (M.Measure.joins measure.now) tariff.now cuts.now walk.new.best) }
{
    let job = walk.depth;
    let place = walk.row[job];
    if place >= tariff.places() {
        if job == 0 {
            return false;
        }
        walk.back();
        return true;
    }
    let pair = Pair { job, place };
    let price = tariff.price_at(pair);
    let total = measure.join(walk.totals[job], price);
    if !is_worth(walk, pair, tariff, cuts, total) {
        walk.skip(pair);
        return true;
    }
    if job + 1 < tariff.jobs() as usize {
        walk.deepen(pair, total);
        return true;
    }
    walk.take(pair, tariff.jobs(), total);
    true
}

// The permitted assignment that obeys the cuts and costs least, with its cost, or nothing where there is none.
// Of equal costs it is the one whose row is smaller at the first difference.
pub fn cheapest<M: Measure>(measure: &M, tariff: &Tariff, cuts: &CutTable) -> Option<Priced>
    ensures found { Finds (job_count tariff.now) (place_count tariff.now) (M.Measure.joins measure.now) (price_of tariff.now) (barred_in tariff.now) (held cuts.now) result }
    ensures only { OneBest (job_count tariff.now) (place_count tariff.now) (M.Measure.joins measure.now) (price_of tariff.now) (barred_in tariff.now) (held cuts.now) }
{
    if !cuts.allows_start() {
        return None;
    }
    let mut walk = Walk::start();
    while turn(&mut walk, measure, tariff, cuts) {}
    walk.best
}
