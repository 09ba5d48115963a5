// What the lines of a file come to, one after another.

ghost use Rattle.std.specs.Prelude.{◌≡◌};
ghost use Rattle.tides_theory.specs.Windows.{allows};
ghost use Rattle.tides.specs.Stages.{fresh_course, course_then, Bounded};

use crate::line::{Tide, Water};

// The minutes from a high water to its window, and those that a move takes.
pub(crate) const WAIT: u64 = 60;

pub(crate) const MOVE_TIME: u64 = 4;

// What is left of the wait in the minute after a high water.
const WAIT_LEFT: u64 = WAIT - 1;

// Behind some lines: the least minute that the next may have, and the last letter, where there is one; whether the lines are in
// order; how many windows they have; and whether one of these allows the minute that is asked for. (None of them says whether
// another is there.)
#[derive(Clone, Copy)]
pub(crate) struct Course {
    pub(crate) next: u64,
    pub(crate) last: Option<Water>,
    pub(crate) ordered: bool,
    pub(crate) windows: usize,
    pub(crate) allowed: bool,
}

// Whether a move that begins at a minute does so within a window, and ends by its end.
fn within(from: u64, to: u64, minute: u64) -> bool
    ensures { result ≡ allows (record { from = from; to = to }) minute }
{
    if to <= minute {
        return false;
    }
    (from <= minute) & (MOVE_TIME <= to - minute)
}

impl Course {
    pub(crate) fn fresh() -> Course
        ensures { result ≡ fresh_course }
    {
        Course {
            next: 0,
            last: None,
            ordered: true,
            windows: 0,
            allowed: false,
        }
    }

    // One line more.
    pub(crate) fn then(self, tide: Tide, minute: u64) -> Course
        requires { Bounded self tide }
        ensures { result ≡ course_then self tide minute }
    {
        let last = Some(tide.water);
        let course = Course {
            next: tide.minute + 1,
            last,
            ordered: self.ordered & (self.next <= tide.minute) & (self.last != last),
            ..self
        };
        if (self.last == Some(Water::High)) & (tide.water == Water::Low) {
            return Course {
                windows: self.windows + 1,
                allowed: self.allowed | within(self.next + WAIT_LEFT, tide.minute, minute),
                ..course
            };
        }
        course
    }
}
