// A survey picked up at a given word (a setting).
ghost use Rattle.std.specs.Prelude.{◌≡◌, cond, not, ◌&&◌, ◌+◌, ◌≤◌, ◌<◌, eqb, leb, take};
ghost use Rattle.gray_theory.specs.Words.{even};
ghost use Rattle.digit.specs.Moving.{moving_as};
ghost use Rattle.ahead_theory.specs.Pickups.{resume_of};
ghost use Rattle.ahead.specs.Pickups.{RankedWord, Standable, Stood, unfilled_with, Unfilled, filled_ahead};
ghost use Rattle.ahead.specs.Structs.{walk_as, opened_as};

use super::work::Places;
use super::{COUNTER, Producer, Progress, Walk, starting, to_go};
use digit::MovingDigits;
use gray::{DIGITS, Refusal};

// Whether a digit goes down, by the rank of the slower digits, of which the parity will do, and its own digit of the rank, b:
// it turns as it comes to its last.
fn goes_down(m: u8, p: u8, b: u8) -> bool
    ensures { result ≡ (leb 2 m && cond (eqb (b + 1) m) (even p) (not (even p))) }
{
    if m < 2 {
        return false;
    }
    if b == m - 1 {
        return p % 2 == 0;
    }
    p % 2 == 1
}

// The place after that of a digit: a locked one has none.
fn past(m: u8, place: usize) -> usize
    requires { place < 48 }
    ensures { result ≡ place + cond (leb 2 m) 1 0 }
{
    if m < 2 { place } else { place + 1 }
}

// The counter over the digits that move, and the directions, at a word (a setting) of this rank. A move is of one notch, so a
// rank is odd where the sum of its notches is: that tells the parity of the slower digits' rank, all that a digit needs of it.
// Document 01's b is how far the digit has come while the slower ones stand as they do, from 0 or from m − 1: what it would
// have to go back.
fn stand(radices: &[u8], word: &[u8], rank: u64, counter: &mut [u8], downs: &mut [bool])
    requires { Standable radices.now word.now rank counter.old downs.old }
    ensures { Stood radices.now rank counter.new downs.new }
{
    let mut p = (rank % 2) as u8;
    let mut place = 0;
    for (i, &m) in radices.iter().enumerate() {
        let a = word[i];
        p = (p + a % 2) % 2;
        let b = to_go(m - 1, a, p % 2 == 0);
        counter[place] = b;
        downs[i] = goes_down(m, p, b);
        place = past(m, place);
    }
}

// The state at a word (a setting) of this rank, before any filling.
fn unfilled(
    radices: [u8; DIGITS],
    n: u8,
    moving: MovingDigits,
    capacity: u8,
    word: [u8; DIGITS],
    rank: u64,
) -> Walk
    requires { (n ≤ 48) × RankedWord (take n radices) (take n word) rank }
    ensures { walk_as result ≡ unfilled_with radices n (moving_as moving) capacity word rank }
{
    let mut counter = [0; COUNTER];
    let mut downs = [false; DIGITS];
    let len = usize::from(n);
    stand(
        &radices[..len],
        &word[..len],
        rank,
        &mut counter,
        &mut downs,
    );
    Walk {
        radices,
        n,
        moving,
        word,
        capacity,
        downs,
        ended: false,
        producer: starting(counter),
        moves: rank,
    }
}

impl Walk {
    // A survey picked up at a word (a setting). Refused: the state that came, and the refusal. Accepted: the state there with
    // its buffer filled ahead, whatever came. (By `let .. else`: document 01 names that form for stages of refusals.)
    pub fn resume(self, radices: &[u8], capacity: usize, word: &[u8]) -> (Walk, Result<(), Refusal>)
        ensures { opened_as result ≡ resume_of (walk_as self) radices.now capacity word.now }
    {
        let counted = gray::survey_size(radices, capacity);
        let Ok(total) = counted else {
            return (self, Err(counted.unwrap_err()));
        };
        let ranked = gray::rank(radices, word);
        let Ok(rank) = ranked else {
            return (self, Err(ranked.unwrap_err()));
        };
        let n = radices.len();
        let digits = digit::reversed(radices);
        let moving = digit::moving(&digits[..n]);
        let notches = digit::reversed(word);
        let standing = unfilled(digits, n as u8, moving, capacity as u8, notches, rank);
        let entries = (total - rank).min(capacity as u64);
        let walk = standing.filled(entries as u8);
        (walk, Ok(()))
    }

    // The walk with its buffer filled ahead by work steps, up to so many entries: as many as there are places, or up to the end
    // entry. That filling is not counted.
    fn filled(self, entries: u8) -> Walk
        requires { Unfilled (walk_as self) entries }
        ensures { walk_as result ≡ filled_ahead (walk_as self) }
    {
        let radices = self.radices;
        let moving = self.moving;
        let numbers = moving.digits;
        let places = Places {
            radices: &radices,
            numbers: &numbers,
            n: self.n,
            count: moving.count,
            capacity: self.capacity,
        };
        let producer = self.producer;
        let mut counter = producer.counter;
        let mut queue = producer.queue;
        let mut at = producer.at;
        // (No index is counted: a step may queue an entry, or not.)
        while at.queued < entries {
            at = places.work(&mut counter, &mut queue, at);
        }
        Walk {
            producer: Producer {
                counter,
                at: Progress { steps: 0, ..at },
                queue,
            },
            ..self
        }
    }
}
