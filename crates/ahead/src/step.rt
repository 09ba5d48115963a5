// A single call.
ghost use Rattle.std.specs.Prelude.{◌≡◌};
ghost use Rattle.ahead_theory.specs.Calls.{step_of, end_of, move_of};
ghost use Rattle.ahead.specs.Structs.{producer_as, walk_as, stepped_as};
ghost use Rattle.ahead.specs.Stages.{DigitToMove};

use super::work::{Places, shifted};
use super::{Producer, Progress, Walk};
use gray::{Refusal, Stepping};

impl Walk {
    // One call: two work steps, then the removal of the oldest entry.
    pub fn step(self) -> (Walk, Result<Stepping, Refusal>)
        ensures { stepped_as result ≡ step_of (walk_as self) }
    {
        if !self.in_range() {
            return (self, Err(Refusal::State));
        }
        if self.ended {
            return (self, Ok(Stepping::End));
        }
        let radices = self.radices;
        let moving = self.moving;
        let count = moving.count;
        let numbers = moving.digits;
        let places = Places {
            radices: &radices,
            numbers: &numbers,
            n: self.n,
            count,
            capacity: self.capacity,
        };
        let producer = self.producer;
        let mut counter = producer.counter;
        let mut queue = producer.queue;
        let at = producer.at;
        let once = places.work(&mut counter, &mut queue, at);
        let twice = places.work(&mut counter, &mut queue, once);
        if twice.queued == 0 {
            return (self, Err(Refusal::Dry));
        }
        let k = queue[0];
        let left = Producer {
            counter,
            at: Progress {
                queued: twice.queued - 1,
                ..twice
            },
            queue: shifted(queue),
        };
        if k == count + 1 {
            return self.end(left);
        }
        self.advance(places.digit_at(k), left)
    }

    // What a call does with the entry after those of the digits that move.
    fn end(self, left: Producer) -> (Walk, Result<Stepping, Refusal>)
        ensures { stepped_as result ≡ end_of (walk_as self) (producer_as left) }
    {
        let walk = Walk {
            ended: true,
            producer: left,
            ..self
        };
        (walk, Ok(Stepping::End))
    }

    // What a call does with the entry of digit k.
    fn advance(self, k: u8, left: Producer) -> (Walk, Result<Stepping, Refusal>)
        requires { DigitToMove (walk_as self) k }
        ensures { stepped_as result ≡ move_of (walk_as self) k (producer_as left) }
    {
        let radices = self.radices;
        let mut word = self.word;
        let mut downs = self.downs;
        let i = usize::from(k) - 1;
        let a = word[i];
        let down = downs[i];
        let to = digit::advanced(radices[i], a, down);
        word[i] = to.digit;
        downs[i] = to.down;
        let walk = Walk {
            word,
            downs,
            ended: false,
            producer: left,
            moves: self.moves + 1,
            ..self
        };
        (walk, Ok(Stepping::Moved(k, down, to.digit)))
    }
}
