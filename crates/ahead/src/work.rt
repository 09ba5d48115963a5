// Work steps, which count ahead of the moves and queue the digits to move, and the removal of the oldest entry.
ghost use Rattle.std.specs.Prelude.{◌≡◌, [], ◌∷◌, ◌++◌, ◌+◌, ◌-◌, ◌≤◌, drop, get_or};
ghost use Rattle.ahead_theory.specs.States.{places};
ghost use Rattle.ahead_theory.specs.Work.{work as workOf};
ghost use Rattle.ahead.specs.Structs.{producer_with};
ghost use Rattle.ahead.specs.Stages.{MovingNumbers, Survey, moving_of, Workable};

use super::Progress;
use gray::CAPACITY;

// What work steps go by: a survey's radices, the numbers of the digits that move, how many digits there are and how many move,
// and the capacity. (An array of numbers and their count, as a state has them: its memory is fixed.)
#[derive(Clone, Copy)]
pub(crate) struct Places<'a> {
    pub(crate) radices: &'a [u8],
    pub(crate) numbers: &'a [u8],
    pub(crate) n: u8,
    pub(crate) count: u8,
    pub(crate) capacity: u8,
}

impl<'a> Places<'a> {
    // The number of the digit that stands at a place of those that move. Where all do it is the place itself: a load less.
    pub(crate) fn digit_at(self, place: u8) -> u8
        requires { MovingNumbers self.numbers.now self.n self.count × (1 ≤ place) × (place ≤ self.count) }
        ensures { result ≡ get_or self.entry.numbers.now (place - 1) 0 }
    {
        if self.count == self.n {
            return place;
        }
        self.numbers[usize::from(place) - 1]
    }

    fn radix_at(self, place: u8) -> u8
        requires { Survey self.radices.now self.numbers.now self.n self.count × (1 ≤ place) × (place ≤ self.count + 1) }
        ensures { result ≡ get_or (places (moving_of self.entry.radices.now self.entry.numbers.now self.entry.count)) (place - 1) 0 }
    {
        if self.count < place {
            return 2;
        }
        let k = self.digit_at(place);
        self.radices[usize::from(k) - 1]
    }

    // One work step. (The counter, the queue and the numbers are lent apart: as a method of `Producer`, which is proved as easily,
    // it costs a call of `step` a twentieth more.)
    pub(crate) fn work(self, counter: &mut [u8], queue: &mut [u8], at: Progress) -> Progress
        requires { Workable self.radices.now self.numbers.now self.n self.count self.capacity counter.old queue.old at }
        ensures { producer_with counter.new queue.new result
            ≡ workOf (moving_of self.entry.radices.now self.entry.numbers.now self.entry.count) self.entry.capacity
            (producer_with counter.old queue.old at) }
    {
        let Progress {
            place,
            queued,
            steps,
        } = at;
        let i = usize::from(place) - 1;
        let b = counter[i];
        if (place == self.count + 1) & (b == 1) {
            return at;
        }
        if b == self.radix_at(place) - 1 {
            counter[i] = 0;
            return Progress {
                place: place + 1,
                steps: steps + 1,
                ..at
            };
        }
        if queued < self.capacity {
            counter[i] = b + 1;
            queue[usize::from(queued)] = place;
            return Progress {
                place: 1,
                queued: queued + 1,
                steps: steps + 1,
            };
        }
        at
    }
}

// The queue without its oldest entry.
pub(crate) fn shifted(queue: [u8; CAPACITY]) -> [u8; CAPACITY]
    ensures { result ≡ drop 1 queue ++ (0 ∷ []) }
{
    let mut next = [0; CAPACITY];
    next[..CAPACITY - 1].copy_from_slice(&queue[1..]);
    next
}
