// The calls on a harbour file.

ghost use Rattle.std.specs.Prelude.{◌≡◌, ◌++◌, map, ◌+◌, ◌^◌, ◌≤◌, ◌<◌, length, drop};
ghost use Rattle.gray_theory.specs.Answers.{Wrote};
ghost use Rattle.tides_theory.specs.Windows.{moves_that_fit};
ghost use Rattle.tides_theory.specs.Calls.{windows_in, counts_call, may_begin_call, Accepted};
ghost use Rattle.gray.specs.Enums.{answer_as};
ghost use Rattle.tides.specs.Stages.{passing, first_high};

use crate::course::{Course, MOVE_TIME, WAIT};
use crate::line::{Day, LINE, Line, minute_of, read_line};
use gray::Refusal;

// A file that is in order: how many windows it has, and whether one allows the minute that is asked for. (Two answers: neither
// says whether the other is there.)
#[derive(Clone, Copy)]
struct Passed {
    windows: usize,
    allowed: bool,
}

// The file from its first line to its last. A line that is not read goes before lines out of order, so these are read on.
fn pass(file: &[u8], minute: u64) -> Result<Passed, Refusal>
    ensures { result ≡ passing file.now minute }
{
    let (lines, rest) = file.as_chunks::<LINE>();
    if !rest.is_empty() {
        return Err(Refusal::Line);
    }
    let mut course = Course::fresh();
    let mut day = Day::first();
    for line in lines {
        let Some(tide) = read_line(line, day) else {
            return Err(Refusal::Line);
        };
        course = course.then(tide, minute);
        day = tide.day;
    }
    if !course.ordered {
        return Err(Refusal::Order);
    }
    Ok(Passed {
        windows: course.windows,
        allowed: course.allowed,
    })
}

// Which line is the first that can open a window: a file may begin with a low water.
fn first_high(lines: &[Line]) -> usize
    ensures found { result ≡ first_high lines.now }
    ensures inside { (result ≤ 1) × (result ≤ length lines.now) }
{
    match lines.first() {
        Some(line) if line[17] == b'L' => 1,
        _ => 0,
    }
}

// How many moves fit in a window.
fn moves(high: u64, low: u64) -> u32
    requires { (high < 2 ^ 32) × (low < 2 ^ 32) }
    ensures { result ≡ moves_that_fit (record { from = high + 60; to = low }) }
{
    (low.saturating_sub(high + WAIT) / MOVE_TIME) as u32
}

// The counts of a file that has been read before, for which `out` has room.
fn put_counts(file: &[u8], out: &mut [u32])
    requires { Accepted file.now × (length (windows_in file.now) ≤ length out.old) }
    ensures { out.new ≡ map moves_that_fit (windows_in file.now) ++ drop (length (windows_in file.now)) out.old }
{
    let (lines, _) = file.as_chunks::<LINE>();
    let (pairs, _) = lines[first_high(lines)..].as_chunks::<2>();
    // Not by a zip with `out.iter_mut()`: no proof knows what such a loop leaves in `out`.
    for (i, [high, low]) in pairs.iter().enumerate() {
        out[i] = moves(minute_of(high), minute_of(low));
    }
}

// How many moves fit in each window, in file order at the start of `out`; the number of windows. What is written can be known
// only once the whole file has been read, so the lines are gone through again then. (By `let .. else`, here and below: document
// 01 names that form for a stage of refusals.)
pub fn counts(file: &[u8], out: &mut [u32]) -> Result<usize, Refusal>
    ensures { Wrote (counts_call file.now) (answer_as result) out.old out.new }
{
    let passed = pass(file, 0);
    let Ok(all) = passed else {
        return Err(passed.unwrap_err());
    };
    if out.len() < all.windows {
        return Err(Refusal::Output);
    }
    put_counts(file, out);
    Ok(all.windows)
}

// Whether a move may begin at a minute, counted from 2000-01-01 00:00.
pub fn may_begin(file: &[u8], minute: u64) -> Result<bool, Refusal>
    ensures { answer_as result ≡ may_begin_call file.now minute }
{
    let passed = pass(file, minute);
    let Ok(all) = passed else {
        return Err(passed.unwrap_err());
    };
    Ok(all.allowed)
}
