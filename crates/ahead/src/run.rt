// A run of moves, on arrays of its own (crate `stretch`).
ghost use Rattle.std.specs.Prelude.{◌≡◌, true, cond, eqb, Ok};
ghost use Rattle.gray_theory.specs.RunCalls.{nothing, end};
ghost use Rattle.gray.specs.Enums.{running_as};
ghost use Rattle.ahead_theory.specs.States.{in_range};
ghost use Rattle.ahead_theory.specs.Calls.{run_of};
ghost use Rattle.stretch.specs.Stages.{stop_number};
ghost use Rattle.ahead.specs.Structs.{walk_as, ran_as};
ghost use Rattle.ahead.specs.Stretches.{Loadable, LoadedOne, Wide, Loaded, CounterFits, CounterBack, WordFits, WordBack, Unloadable, Unloaded, Callable, Calls, Room, outcome_of, stop_by};

use super::{Producer, Progress, Walk, to_go};
use gray::{CAPACITY, Refusal, Running};
use stretch::{PLACES, Stage, Stop};

// Calls of a run: the state after them, how many moved, and what stopped them, if anything did.
#[derive(Clone, Copy)]
struct Called {
    walk: Walk,
    made: usize,
    stop: Option<Stop>,
}

// The arrays of a run, by places: the radices less 1, what is left to count, what the digit there has left to go in its
// direction, and the byte of its next move. (Four arrays and none of structs: `stretch::run` takes them, and lets each be indexed
// by any byte.)
#[derive(Clone, Copy)]
struct Lanes {
    tops: [u8; PLACES],
    rest: [u8; PLACES],
    left: [u8; PLACES],
    bytes: [u8; PLACES],
}

impl Lanes {
    // One digit that moves, at its place among those, and the place of the counter with that number.
    fn load_digit(&mut self, i: usize, m: u8, b: u8, number: u8, a: u8, down: bool)
        requires { Loadable i m b a × Wide self.old.tops self.old.rest self.old.left self.old.bytes }
        ensures { LoadedOne i m b number a down self.old.tops self.old.rest self.old.left self.old.bytes
            self.new.tops self.new.rest self.new.left self.new.bytes }
    {
        let top = m - 1;
        self.tops[i] = top;
        self.rest[i] = top - b;
        self.left[i] = to_go(top, a, down);
        self.bytes[i] = digit::move_byte(number, down);
    }

    // The counter, by what is left to count at its places.
    fn counter_back(&self, last: usize, counter: &mut [u8])
        requires { CounterFits last self.now.tops self.now.rest counter.old }
        ensures { CounterBack last self.now.tops self.now.rest counter.old counter.new }
    {
        for i in 0..last {
            counter[i] = self.tops[i + 1] - self.rest[i + 1];
        }
    }

    // The word and the directions, by what the digits that move have left to go and by their next moves.
    fn word_back(&self, count: usize, numbers: &[u8], word: &mut [u8], downs: &mut [bool])
        requires { WordFits count numbers.now self.now.tops self.now.left self.now.bytes word.old downs.old }
        ensures { WordBack count numbers.now self.now.tops self.now.left self.now.bytes
            word.old downs.old word.new downs.new }
    {
        for i in 0..count {
            let place = i + 1;
            let down = digit::move_down(self.bytes[place]);
            let d = usize::from(numbers[i]) - 1;
            word[d] = to_go(self.tops[place], self.left[place], down);
            downs[d] = down;
        }
    }
}

// What a run of t moves answers that makes no call or meets an ended walk.
fn unmoved(t: u64) -> Running
    ensures { running_as (Ok result) ≡ outcome_of 0 (cond (eqb t 0) nothing end) }
{
    if t == 0 {
        return Running::Made(0);
    }
    Running::Ended(0)
}

// What a run of t moves answers whose calls were stopped so after so many moves. Fewer than t, though nothing stopped them, are
// as many as there are before j = N.
fn outcome(stop: Option<Stop>, made: u64, t: u64) -> Running
    ensures { running_as (Ok result) ≡ outcome_of made (stop_by (stop_number stop) made t) }
{
    match stop {
        Some(Stop::End) => Running::Ended(made),
        Some(Stop::Dry) => Running::Stopped(made, Refusal::Dry),
        _ if made < t => Running::Stopped(made, Refusal::State),
        _ => Running::Made(made),
    }
}

impl Walk {
    // The arrays of a run from this state. (They are lent to it: a kilobyte handed back would be copied, which costs a short run
    // a twentieth.)
    fn load(self, lanes: &mut Lanes)
        requires { in_range (walk_as self) ≡ true }
        ensures { Loaded (walk_as self) lanes.new.tops lanes.new.rest lanes.new.left lanes.new.bytes }
    {
        let radices = self.radices;
        let moving = self.moving;
        let numbers = moving.digits;
        let count = usize::from(moving.count);
        let word = self.word;
        let downs = self.downs;
        let producer = self.producer;
        let counter = producer.counter;
        for i in 0..count {
            let number = numbers[i];
            let d = usize::from(number) - 1;
            lanes.load_digit(i + 1, radices[d], counter[i], number, word[d], downs[d]);
        }
        lanes.tops[count + 1] = 1;
        lanes.rest[count + 1] = 1 - counter[count];
    }

    // The state that the arrays stand for.
    fn unload(
        self,
        lanes: &Lanes,
        entries: [u8; CAPACITY],
        at: Stage,
        made: u64,
        ended: bool,
    ) -> Walk
        requires { Unloadable (walk_as self) lanes.now.tops lanes.now.rest lanes.now.left lanes.now.bytes entries at made ended }
        ensures { Unloaded (walk_as self) lanes.now.tops lanes.now.rest lanes.now.left lanes.now.bytes
            entries at made ended (walk_as result) }
    {
        let moving = self.moving;
        let numbers = moving.digits;
        let count = usize::from(moving.count);
        let mut word = self.word;
        let mut downs = self.downs;
        let producer = self.producer;
        let mut counter = producer.counter;
        lanes.word_back(count, &numbers, &mut word, &mut downs);
        lanes.counter_back(count + 1, &mut counter);
        Walk {
            word,
            downs,
            ended,
            producer: Producer {
                counter,
                at: Progress {
                    place: at.place as u8,
                    queued: at.tail as u8,
                    steps: at.steps,
                },
                queue: entries,
            },
            moves: self.moves + made,
            ..self
        }
    }

    // At most `limit` calls from a state in range that has not ended, up to the first that does not move. The state is out of
    // range only once N moves are made, so that the range is not tested in between.
    fn calls(self, limit: usize, out: &mut [u8]) -> Called
        requires { Callable (walk_as self) limit out.old }
        ensures { Calls (walk_as self) limit out.old out.new (walk_as result.walk) result.made (stop_number result.stop) }
    {
        let moving = self.moving;
        let last = usize::from(moving.count) + 1;
        let c = usize::from(self.capacity);
        let mut lanes = Lanes {
            tops: [0; PLACES],
            rest: [0; PLACES],
            left: [0; PLACES],
            bytes: [0; PLACES],
        };
        self.load(&mut lanes);
        let producer = self.producer;
        let mut entries = producer.queue;
        let from = producer.at;
        let mut at = Stage {
            place: usize::from(from.place),
            tail: usize::from(from.queued),
            steps: from.steps,
        };
        let mut done = 0;
        let mut stop = None;
        // (No index is counted: a stretch makes up to so many moves.)
        while (done < limit) & stop.is_none() {
            let ran = stretch::run(
                last,
                c,
                (limit - done).min(stretch::CALLS),
                &lanes.tops,
                &mut lanes.rest,
                &mut lanes.left,
                &mut lanes.bytes,
                entries,
                at,
                done,
                out,
            );
            entries = ran.entries;
            at = ran.at;
            done += ran.made;
            stop = ran.stop;
        }
        let walk = self.unload(&lanes, entries, at, done as u64, stop == Some(Stop::End));
        Called {
            walk,
            made: done,
            stop,
        }
    }

    // The moves that are left before j = N.
    fn room(self) -> u64
        requires { in_range (walk_as self) ≡ true }
        ensures { Room (walk_as self) result }
    {
        let n = usize::from(self.n);
        let radices = self.radices;
        let counted = gray::size(&radices[..n]);
        let Ok(total) = counted else {
            return 0;
        };
        total - self.moves
    }

    // A run of moves: at most t calls, up to the first that does not move. One byte a move in `out`, which has to hold t bytes.
    pub fn run(self, t: u64, out: &mut [u8]) -> (Walk, Result<Running, Refusal>)
        ensures { ran_as result out.new ≡ run_of (walk_as self) t out.old }
    {
        if !self.in_range() {
            return (self, Err(Refusal::State));
        }
        if (out.len() as u64) < t {
            return (self, Err(Refusal::Output));
        }
        if (t == 0) | self.ended {
            return (self, Ok(unmoved(t)));
        }
        let room = self.room();
        let limit = t.min(room);
        let called = self.calls(limit as usize, out);
        let answer = outcome(called.stop, called.made as u64, t);
        (called.walk, Ok(answer))
    }
}
