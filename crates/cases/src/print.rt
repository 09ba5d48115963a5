// Printing: what calls answer, and the states of both engines.

use ahead::Walk;
use digit::MovingDigits;
use gray::{Refusal, Running, Stepping};
use std::fmt;
use std::fmt::Write;
use towers::Towers;

// Standard output by the kit's `io`: std's streams would rest on more of C's functions.
#[derive(Clone, Copy)]
struct Output;

impl fmt::Write for Output {
    fn write_str(&mut self, text: &str) -> fmt::Result {
        print_bytes(text.as_bytes());
        Ok(())
    }
}

pub(crate) fn print_bytes(bytes: &[u8]) {
    io::write_all(1, bytes);
}

pub(crate) fn print(text: impl fmt::Display + Drop) {
    let _ = write!(Output, "{text}");
}

// The bytes of a list, each with a space before it.
#[derive(Clone, Copy)]
pub(crate) struct Items<'a>(pub &'a [u8]);

impl fmt::Display for Items<'_> {
    fn fmt<W: fmt::Write>(&self, f: &mut fmt::Formatter<W>) -> fmt::Result {
        for item in self.0 {
            write!(f, " {item}")?;
        }
        Ok(())
    }
}

// What a field has for each digit, digit n first.
#[derive(Clone, Copy)]
struct Digits<'a, T>(&'a [T]);

impl<T: Copy + Into<u8>> fmt::Display for Digits<'_, T> {
    fn fmt<W: fmt::Write>(&self, f: &mut fmt::Formatter<W>) -> fmt::Result {
        for digit in self.0.iter().rev() {
            let byte: u8 = (*digit).into();
            write!(f, " {byte}")?;
        }
        Ok(())
    }
}

// The first n, or all of them where they are fewer.
fn first<T>(items: &[T], n: usize) -> &[T] {
    items.get(..n).unwrap_or(items)
}

pub(crate) fn direction(down: bool) -> &'static str {
    if down { "down" } else { "up" }
}

// What the states of both engines have.
fn print_survey(n: u8, radices: &[u8], moving: &MovingDigits, word: &[u8], downs: &[bool]) {
    let digits = usize::from(n);
    print(format_args!("; n {n}; radix{}", Digits(first(radices, digits))));
    print_counted("moving", moving.count, "number", &moving.digits);
    print(format_args!("; digit{}", Digits(first(word, digits))));
    print(format_args!("; down{}", Digits(first(downs, digits))));
}

// A field that says how many bytes there are, and the field that has them, the first of them first.
fn print_counted(name: &str, count: u8, each: &str, bytes: &[u8]) {
    let items = Items(first(bytes, usize::from(count)));
    print(format_args!("; {name} {count}; {each}{items}"));
}

pub(crate) fn print_walk(walk: &Walk) {
    print_survey(walk.n, &walk.radices, &walk.moving, &walk.word, &walk.downs);
    let counter = Digits(first(&walk.producer.counter, usize::from(walk.moving.count) + 1));
    let at = walk.producer.at;
    print(format_args!(
        "; capacity {}; counter{counter}; place {}",
        walk.capacity, at.place
    ));
    print_counted("queued", at.queued, "entry", &walk.producer.queue);
    print(format_args!(
        "; steps {}; moves {}; ended {}",
        at.steps,
        walk.moves,
        u8::from(walk.ended)
    ));
}

pub(crate) fn print_towers(towers: &Towers) {
    print_survey(
        towers.n,
        &towers.radices,
        &towers.moving,
        &towers.word,
        &towers.downs,
    );
    let pegs = Digits(first(&towers.pegs, usize::from(towers.moving.count)));
    print(format_args!("; turn {}; peg{pegs}", towers.turn));
}

// An answer, or the refusal's number.
pub(crate) fn print_answer<T: fmt::Display + Drop>(answer: Result<T, Refusal>) {
    match answer {
        Ok(value) => print(format_args!(": {value}")),
        Err(refusal) => print(format_args!(": refused {}", u8::from(refusal))),
    }
}

pub(crate) fn print_opening(answer: Result<(), Refusal>) {
    print_answer(answer.map(|()| "open"));
}

// The words for what a step and a run answer.
#[derive(Clone, Copy)]
pub(crate) struct Stepped(pub Stepping);

impl fmt::Display for Stepped {
    fn fmt<W: fmt::Write>(&self, f: &mut fmt::Formatter<W>) -> fmt::Result {
        match self.0 {
            Stepping::Moved(digit, down, notch) => {
                write!(f, "moved {digit} {} to {notch}", direction(down))
            }
            Stepping::End => write!(f, "end"),
        }
    }
}

#[derive(Clone, Copy)]
pub(crate) struct Ran(pub Running);

impl fmt::Display for Ran {
    fn fmt<W: fmt::Write>(&self, f: &mut fmt::Formatter<W>) -> fmt::Result {
        match self.0 {
            Running::Made(moves) => write!(f, "made {moves}"),
            Running::Ended(moves) => write!(f, "ended {moves}"),
            Running::Stopped(moves, refusal) => {
                write!(f, "stopped {moves} {}", u8::from(refusal))
            }
        }
    }
}

// Lends a call so many bytes of 9, 256 at the most, and prints what it answers and the bytes afterwards.
pub(crate) fn print_lent<T: fmt::Display + Drop, F: FnOnce(&mut [u8]) -> Result<T, Refusal>>(
    lent: u64,
    call: F,
)
    requires { F.IsAlwaysCallable call }
{
    let mut out = [9u8; 256];
    let k = out.len().min(lent as usize);
    print_answer(call(&mut out[..k]));
    print(format_args!(";{}", Items(&out[..k])));
}
