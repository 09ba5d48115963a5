// The calls of the buffered engine, and changes of its state.

use crate::print::{Ran, Stepped, print_answer, print_lent, print_opening, print_walk};
use crate::words::{Given, narrow};
use ahead::Walk;

fn step(walk: &mut Walk) {
    let (next, answer) = walk.step();
    *walk = next;
    print_answer(answer.map(Stepped));
    print_walk(walk);
}

fn open(walk: &mut Walk, radices: &[u8], capacity: u64) {
    let (next, answer) = walk.open(radices, capacity as usize);
    *walk = next;
    print_opening(answer);
}

// The capacity is the first of the numbers, and the word's digits are the others.
fn resume(walk: &mut Walk, radices: &[u8], numbers: &[u64]) -> Option<()> {
    let (&capacity, digits) = numbers.split_first()?;
    let mut word = [0u8; 64];
    let (next, answer) = walk.resume(radices, capacity as usize, narrow(digits, &mut word)?);
    *walk = next;
    print_opening(answer);
    print_walk(walk);
    Some(())
}

pub(crate) fn run(walk: &mut Walk, moves: u64, lent: u64) {
    print_lent(lent, |out| {
        let (next, answer) = walk.run(moves, out);
        *walk = next;
        answer.map(Ran)
    });
    print_walk(walk);
}

// Changes the byte of a field that a line names: a single one, or that of a digit or an entry.
fn set(walk: &mut Walk, name: &[u8], index: Option<usize>, value: u8) -> Option<()> {
    match (name, index) {
        (b"n", None) => walk.n = value,
        (b"moving", None) => walk.moving.count = value,
        (b"capacity", None) => walk.capacity = value,
        (b"place", None) => walk.producer.at.place = value,
        (b"queued", None) => walk.producer.at.queued = value,
        (b"ended", None) => walk.ended = value == 1,
        (b"radix", Some(i)) => *walk.radices.get_mut(i)? = value,
        (b"number", Some(i)) => *walk.moving.digits.get_mut(i)? = value,
        (b"digit", Some(i)) => *walk.word.get_mut(i)? = value,
        (b"down", Some(i)) => *walk.downs.get_mut(i)? = value == 1,
        (b"counter", Some(i)) => *walk.producer.counter.get_mut(i)? = value,
        (b"entry", Some(i)) => *walk.producer.queue.get_mut(i)? = value,
        _ => return None,
    }
    Some(())
}

pub(crate) fn call(walk: &mut Walk, name: &[u8], given: Given) -> Option<()> {
    match (name, given.numbers) {
        (b"step", _) => step(walk),
        (b"resume", numbers) => resume(walk, given.list, numbers)?,
        (b"open", &[capacity]) => open(walk, given.list, capacity),
        (b"steps", &[value]) => walk.producer.at.steps = value,
        (b"moves", &[value]) => walk.moves = value,
        (_, &[value]) => set(walk, name, given.index(), u8::try_from(value).ok()?)?,
        _ => return None,
    }
    Some(())
}
