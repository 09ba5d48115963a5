// The range rule of a state: a call on one that breaks it is refused.
ghost use Rattle.std.specs.Prelude.{◌≡◌, ◌&&◌, ◌||◌, ◌+◌, ◌^◌, ◌≤◌, leb, ltb, length, take, get_or};
ghost use Rattle.gray_theory.specs.Directions.{all_below};
ghost use Rattle.gray_theory.specs.Unlocked.{looked_up};
ghost use Rattle.ahead_theory.specs.States.{moving_radices, counter_in_range, step_limit, in_range};
ghost use Rattle.ahead.specs.Structs.{walk_as};
ghost use Rattle.ahead.specs.Stages.{DigitNumbers, Known};

use super::{COUNTER, Walk};
use gray::DIGITS;

// A place of the counter below its radix, or one past the n that count.
fn below(n: u8, number: u8, m: u8, b: u8) -> bool
    ensures { result ≡ (ltb n number || ltb b m) }
{
    (n < number) | (b < m)
}

// The counter's first n places. The loop goes over all, whatever n is, and gathers its tests with no way out in between: three
// turns on vectors. The place's number is counted as a byte, since an index would be compared as 64 bits.
fn places_below(n: u8, radices: [u8; DIGITS], counter: [u8; COUNTER]) -> bool
    ensures { result ≡ all_below (length (take n radices)) (λ i. ltb (get_or counter i 0) (get_or radices i 0)) }
{
    let mut number: u8 = 0;
    let mut ok = true;
    for i in 0..DIGITS {
        number += 1;
        ok = ok & below(n, number, radices[i], counter[i]);
    }
    ok
}

// The counter's places for the digits of some numbers.
fn moving_below(radices: &[u8], numbers: &[u8], counter: &[u8]) -> bool
    requires { DigitNumbers radices.now numbers.now × (length numbers.now ≤ length counter.now) }
    ensures { result ≡ all_below (length numbers.now)
        (λ i. ltb (get_or counter.now i 0) (get_or (looked_up radices.now numbers.now) i 0)) }
{
    let mut ok = true;
    for (i, &number) in numbers.iter().enumerate() {
        let d = usize::from(number) - 1;
        ok = ok & (counter[i] < radices[d]);
    }
    ok
}

fn is_place(n: u8, i: u8) -> bool
    requires { n ≤ 48 }
    ensures { result ≡ leb 1 i && leb i (n + 1) }
{
    (1 <= i) & (i <= n + 1)
}

fn entries_in_range(n: u8, entries: &[u8]) -> bool
    requires { n ≤ 48 }
    ensures { result ≡ all_below (length entries.now)
        (λ i. leb 1 (get_or entries.now i 0) && leb (get_or entries.now i 0) (n + 1)) }
{
    let mut ok = true;
    for &entry in entries {
        ok = ok & is_place(n, entry);
    }
    ok
}

// The bounds on moves and steps; the bound on moves is tested first, so that twice their number fits.
fn within(total: u64, moves: u64, ended: bool, steps: u64) -> bool
    requires { total ≤ 2 ^ 62 }
    ensures { result ≡ ltb moves total && leb steps (step_limit moves ended) }
{
    if total <= moves {
        return false;
    }
    if ended {
        steps <= 2 * moves + 2
    } else {
        steps <= 2 * moves
    }
}

impl Walk {
    // The counter's part of the range rule.
    fn counter_in_range(self) -> bool
        requires { Known (walk_as self).directed }
        ensures { result ≡ counter_in_range (moving_radices (walk_as self)) self.producer.counter }
    {
        let radices = self.radices;
        let moving = self.moving;
        let producer = self.producer;
        let counter = producer.counter;
        let count = moving.count;
        let len = usize::from(count);
        let last = counter[len] < 2;
        if count == self.n {
            return places_below(count, radices, counter) & last;
        }
        let numbers = moving.digits;
        moving_below(&radices, &numbers[..len], &counter) & last
    }

    pub(crate) fn in_range(self) -> bool
        ensures { result ≡ in_range (walk_as self) }
    {
        let n = self.n;
        if digit::MOST < n {
            return false;
        }
        let radices = self.radices;
        let c = self.capacity;
        let counted = gray::survey_size(&radices[..usize::from(n)], usize::from(c));
        let Ok(total) = counted else {
            return false;
        };
        let producer = self.producer;
        let at = producer.at;
        let queued = at.queued;
        if c < queued {
            return false;
        }
        let moving = self.moving;
        if !digit::moving_in_range(n, radices, moving) {
            return false;
        }
        let count = moving.count;
        let queue = producer.queue;
        let notches = digit::digits_in_range(n, radices, self.word, self.downs);
        let entries = entries_in_range(count, &queue[..usize::from(queued)]);
        (notches & self.counter_in_range())
            & ((is_place(count, at.place) & entries)
                & within(total, self.moves, self.ended, at.steps))
    }
}
