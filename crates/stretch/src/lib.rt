// A stretch of a run of moves: the buffered engine's calls on arrays that the run holds, in a quicker form than a state's own.
// Places of the counter, and digits that move by their places, are the indexes of arrays of 256 bytes, so that any byte is one.
// The queue of its calls is long: a removal leaves its entry behind, and nothing is shifted before the stretch is over.

#![tactic(auto)]

ghost use Rattle.std.specs.Prelude.{◌≡◌, ◌+◌, ◌≤◌, length, take, drop};
ghost use Rattle.gray_theory.specs.Arrays.{filled};
ghost use Rattle.ahead_theory.specs.Locals.{fast_work, turned_byte, fast_call};
ghost use Rattle.ahead_theory.specs.Stretches.{backed};
ghost use Rattle.stretch.specs.Stages.{fast_of, called_as, ran_as, calls_by, stretch_as, stretch_by, FastWorkable, FastMovable, Moves, FastCallable, Runnable, fits_for};

use gray::CAPACITY;

// The numbers of a run: the place that the counter has come to, the place in the queue where the next entry goes, and the
// useful steps made.
#[derive(Clone, Copy, Debug, PartialEq, Eq)]
pub struct Stage {
    pub place: usize,
    pub tail: usize,
    pub steps: u64,
}

// What stops calls: the end of the walk, a dry call, or arrays and numbers that are no run's.
#[derive(Clone, Copy, Debug, PartialEq, Eq)]
pub enum Stop {
    End,
    Dry,
    Misfit,
}

// What a stretch leaves besides its arrays: the calls that moved, the queue's entries, the oldest first, the numbers then, and
// what stopped it, if anything did.
#[derive(Clone, Copy)]
pub struct Stretch {
    pub made: usize,
    pub entries: [u8; CAPACITY],
    pub at: Stage,
    pub stop: Option<Stop>,
}

// What its calls leave besides the arrays and the long queue: how many moved, the entries removed, the numbers then, and what
// stopped them, if anything did.
#[derive(Clone, Copy)]
struct Ran {
    made: usize,
    taken: usize,
    at: Stage,
    stop: Option<Stop>,
}

// What a call says: the byte of its move, the end of the walk, or that it was dry.
#[derive(Clone, Copy, Debug, PartialEq, Eq)]
enum Event {
    Moved(u8),
    End,
    Dry,
}

// The places of a run's arrays: a byte is the index of one.
pub const PLACES: usize = 256;

// The most calls of a stretch.
pub const CALLS: usize = 1024;

// The places of its queue: each call adds one entry at most to those that it begins with.
const QUEUE: usize = CALLS + CAPACITY;

// One work step.
fn work(
    tops: &[u8],
    last: usize,
    bound: usize,
    rest: &mut [u8],
    queue: &mut [u8],
    at: Stage,
) -> Stage
    requires { FastWorkable tops.now last bound rest.old queue.old at }
    ensures { fast_of rest.new queue.new result
        ≡ fast_work tops.now last bound (fast_of rest.old queue.old at) }
{
    let Stage { place, tail, steps } = at;
    let b = rest[place];
    if b == 0 {
        if place == last {
            return at;
        }
        rest[place] = tops[place];
        return Stage {
            place: place + 1,
            steps: steps + 1,
            ..at
        };
    }
    if tail < bound {
        rest[place] = b - 1;
        queue[tail] = place as u8;
        return Stage {
            place: 1,
            tail: tail + 1,
            steps: steps + 1,
        };
    }
    at
}

// The carries of a dry call, two at most, are undone: two stores in two tests, which a loop over from..to would not bound.
fn undo(rest: &mut [u8], from: usize, to: usize)
    requires { (length rest.old ≡ 256) × (to ≤ 256) }
    ensures { rest.new ≡ backed rest.old from to }
{
    if from < to {
        rest[from] = 0;
        if from + 1 < to {
            rest[from + 1] = 0;
        }
    }
}

// The byte of a move the other way. (By adding 128 or taking it, as `turned_byte` says of every byte; the log's `turned` differs.)
fn turned(byte: u8) -> u8
    ensures { result ≡ turned_byte byte }
{
    if byte < 128 { byte + 128 } else { byte - 128 }
}

// The digit at a place moves: the byte of the move.
fn advance(tops: &[u8], left: &mut [u8], bytes: &mut [u8], i: usize) -> u8
    requires { FastMovable tops.now left.old bytes.old i }
    ensures { Moves tops.now left.old bytes.old i result left.new bytes.new }
{
    let byte = bytes[i];
    let a = left[i];
    if a <= 1 {
        left[i] = tops[i];
        bytes[i] = turned(byte);
        return byte;
    }
    left[i] = a - 1;
    byte
}

// A call after k removals: two work steps, then the removal of the oldest entry. The numbers then, and what it says. That the
// call is dry is seen after its steps, which is quicker, since it is rare. (Arrays come one by one here and below: as a struct of
// lent slices each clause would name the struct, the array and the moment, and be no plainer.)
fn call(
    last: usize,
    c: usize,
    k: usize,
    tops: &[u8],
    rest: &mut [u8],
    queue: &mut [u8],
    left: &mut [u8],
    bytes: &mut [u8],
    at: Stage,
) -> (Stage, Event)
    requires { FastCallable last c k tops.now rest.old queue.old left.old bytes.old at }
    ensures { called_as result rest.new queue.new left.new bytes.new
        ≡ fast_call tops.now last c k (fast_of rest.old queue.old at)
        left.old bytes.old }
{
    let once = work(tops, last, k + c, rest, queue, at);
    let twice = work(tops, last, k + c, rest, queue, once);
    if twice.tail == k {
        undo(rest, at.place, twice.place);
        return (at, Event::Dry);
    }
    let e = usize::from(queue[k]);
    if e == last {
        return (twice, Event::End);
    }
    let byte = advance(tops, left, bytes, e);
    (twice, Event::Moved(byte))
}

// Whether the arrays and numbers can be a run's: what keeps every index and sum of the stretch within its bounds.
fn fits(
    last: usize,
    c: usize,
    limit: usize,
    tops: &[u8],
    rest: &[u8],
    left: &[u8],
    bytes: &[u8],
    at: Stage,
    done: usize,
    out: &[u8],
) -> bool
    ensures { result ≡ fits_for last c limit tops.now rest.now left.now bytes.now
        at done out.now }
{
    if out.len() < done {
        return false;
    }
    let arrays = (tops.len() == PLACES)
        & ((rest.len() == PLACES) & ((left.len() == PLACES) & (bytes.len() == PLACES)));
    let numbers = ((1 <= last) & (last < PLACES))
        & ((at.place <= last)
            & ((c <= CAPACITY) & ((limit <= CALLS) & (at.steps <= 0x8000_0000_0000_0000))));
    (arrays & numbers) & (limit <= out.len() - done)
}

// A queue with room for the entries of a stretch.
fn long_queue(entries: [u8; CAPACITY]) -> [u8; QUEUE]
    ensures { result ≡ filled 1056 0 entries }
{
    let mut queue = [0; QUEUE];
    queue[..CAPACITY].copy_from_slice(&entries);
    queue
}

// As many entries of it as a state's queue holds.
fn window(queue: &[u8], from: usize) -> [u8; CAPACITY]
    requires { from + 32 ≤ length queue.now }
    ensures { result ≡ take 32 (drop from queue.now) }
{
    let mut entries = [0; CAPACITY];
    entries.copy_from_slice(&queue[from..from + CAPACITY]);
    entries
}

// At most `limit` calls, up to the first that does not move: one byte a move in `out`, from place `done` on.
fn run_calls(
    last: usize,
    c: usize,
    limit: usize,
    tops: &[u8],
    rest: &mut [u8],
    queue: &mut [u8],
    left: &mut [u8],
    bytes: &mut [u8],
    from: Stage,
    done: usize,
    out: &mut [u8],
) -> Ran
    requires { Runnable last c limit tops.now rest.old queue.old left.old bytes.old from 0 done out.old }
    ensures { ran_as result rest.new queue.new left.new bytes.new out.new
        ≡ calls_by last c limit tops.now rest.old queue.old left.old
        bytes.old from done out.old }
{
    let mut at = from;
    for k in 0..limit {
        let (next, called) = call(last, c, k, tops, rest, queue, left, bytes, at);
        at = next;
        match called {
            Event::Moved(byte) => out[done + k] = byte,
            Event::End => {
                return Ran {
                    made: k,
                    taken: k + 1,
                    at,
                    stop: Some(Stop::End),
                };
            }
            Event::Dry => {
                return Ran {
                    made: k,
                    taken: k,
                    at,
                    stop: Some(Stop::Dry),
                };
            }
        }
    }
    Ran {
        made: limit,
        taken: limit,
        at,
        stop: None,
    }
}

// The calls of a stretch, from the queue's entries, the oldest first, to those that it leaves. (It takes slices one by one, and no
// struct of arrays: it promises what it does with those that are no run's, too.)
pub fn run(
    last: usize,
    c: usize,
    limit: usize,
    tops: &[u8],
    rest: &mut [u8],
    left: &mut [u8],
    bytes: &mut [u8],
    entries: [u8; CAPACITY],
    from: Stage,
    done: usize,
    out: &mut [u8],
) -> Stretch
    ensures { stretch_as result rest.new left.new bytes.new out.new
        ≡ stretch_by last c limit tops.now rest.old left.old bytes.old
        entries from done out.old }
{
    if !fits(last, c, limit, tops, rest, left, bytes, from, done, out) {
        return Stretch {
            made: 0,
            entries,
            at: from,
            stop: Some(Stop::Misfit),
        };
    }
    let mut queue = long_queue(entries);
    let ran = run_calls(
        last, c, limit, tops, rest, &mut queue, left, bytes, from, done, out,
    );
    let Ran {
        made,
        taken,
        at,
        stop,
    } = ran;
    Stretch {
        made,
        entries: window(&queue, taken),
        at: Stage {
            tail: at.tail - taken,
            ..at
        },
        stop,
    }
}
