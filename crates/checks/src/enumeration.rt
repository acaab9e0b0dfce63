// Which tasks fit, by trying all starts. Nothing here is shared with the search.

// How many tasks an instance has, how many hours, and how many ways there are to start all tasks.
pub const COUNT: usize = 4;

const HOURS: u32 = 8;

const WAYS: u32 = 4096;

#[derive(Clone, Copy)]
pub struct Task {
    pub release: u32,
    pub takes: u32,
    pub due: u32,
    pub draw: u32,
    pub wanted: bool,
}

impl Task {
    fn fits_window(self, start: u32) -> bool {
        self.release <= start && start <= self.due && self.takes <= self.due - start
    }

    // Whether a task with this start ends by the hour.
    fn ends_by(self, start: u32, hour: u32) -> bool {
        start <= hour && self.takes <= hour - start
    }

    fn runs_at(self, start: u32, hour: u32) -> bool {
        start <= hour && hour - start < self.takes
    }

    // Whether one of the two tasks ends by the start of the other, or they need not.
    fn alone(self, start: u32, other: Task, later: u32) -> bool {
        !self.wanted || !other.wanted || self.ends_by(start, later) || other.ends_by(later, start)
    }
}

// The tasks that are wanted are to fit.
#[derive(Clone, Copy)]
pub struct Instance {
    pub supply: u32,
    pub tasks: [Task; COUNT],
}

// The starts of all tasks in one of the ways.
fn starts_of(way: u32) -> [u32; COUNT] {
    [
        way % HOURS,
        way / HOURS % HOURS,
        way / HOURS / HOURS % HOURS,
        way / HOURS / HOURS / HOURS,
    ]
}

impl Instance {
    fn windows_kept(&self, starts: &[u32; COUNT]) -> bool {
        self.tasks
            .iter()
            .zip(starts)
            .all(|(task, start)| !task.wanted || task.fits_window(*start))
    }

    fn one_by_one(&self, starts: &[u32; COUNT]) -> bool {
        for (i, (task, start)) in self.tasks.iter().zip(starts).enumerate() {
            for (other, later) in self.tasks.iter().zip(starts).take(i) {
                if !task.alone(*start, *other, *later) {
                    return false;
                }
            }
        }
        true
    }

    fn fed_at(&self, starts: &[u32; COUNT], hour: u32) -> bool {
        let mut left = self.supply;
        for (task, start) in self.tasks.iter().zip(starts) {
            if task.wanted && task.runs_at(*start, hour) {
                let Some(less) = left.checked_sub(task.draw) else {
                    return false;
                };
                left = less;
            }
        }
        true
    }

    fn fed(&self, starts: &[u32; COUNT]) -> bool {
        (0..HOURS).all(|hour| self.fed_at(starts, hour))
    }

    // Whether some starts let the tasks run one after the other.
    pub fn fits_one_by_one(&self) -> bool {
        (0..WAYS).map(starts_of).any(|starts| self.windows_kept(&starts)
            && self.one_by_one(&starts))
    }

    // Whether some starts keep all draws within the supply.
    pub fn fits_supply(&self) -> bool {
        (0..WAYS)
            .map(starts_of)
            .any(|starts| self.windows_kept(&starts) && self.fed(&starts))
    }
}
