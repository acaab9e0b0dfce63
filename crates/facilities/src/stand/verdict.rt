// What a stand can schedule.
ghost use Rattle.facilities.specs.Stands.{stand_family};
ghost use Rattle.facilities.specs.Rows.{row_list};
ghost use Rattle.facilities.specs.Loads.{schedule_part};

use crate::facility::Facility;
use crate::search::first;
use crate::stand::Stand;
use crate::stand::timetable::Timetable;
use jobs::set::JobSet;

impl Facility for Stand {
    ghost family = { stand_family };

    ghost parts = { λ s part whole p m. schedule_part (row_list s.rows) s.supply part whole p m };

    fn verdict(&self, set: JobSet) -> bool {
        let mut timetable = Timetable::new(self.supply, self.rows, set);
        first(&mut timetable).is_some()
    }
}
