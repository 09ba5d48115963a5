// Walks a survey from its first setting to its end, by the buffered engine with half of n places rounded up and then by the
// disk engine, and prints for each the number of moves and the last setting, or its refusal, or `unfinished` where it has not
// ended after N moves. Input is a line as `walk` reads it. Any other text prints `unread`, a refused survey its number.

#![tactic(auto)]

ghost use Rattle.std.specs.Prelude.{◌≤◌};

use ahead::Walk;
use engines::Engine;
use gray::{DIGITS, Refusal, Running};
use reader::{Found, Reader};
use towers::Towers;

// Why a walk came to no end: a call that was refused, or no end in N moves.
#[derive(Clone, Copy, Debug, PartialEq, Eq)]
enum Unended {
    Refused(Refusal),
    Unfinished,
}

// (By `io` and not `println!`: std's streams rest on more functions of C, and nothing more is to be assumed. A crate for the few
// lines that programs share would be no plainer.)
fn print(bytes: &[u8]) {
    io::write_all(1, bytes);
}

// The moves of whole parts and of the last run. N is at most 2^62, so that nothing is cut off here.
fn moves_in(parts: u64, last: u64) -> u64 {
    parts % 0x0008_0000_0000_0000 * 4096 + last % 4096
}

// What a run after so many whole parts says of the walk, and nothing where it makes all its moves.
fn outcome(parts: u64, ran: Result<Running, Refusal>) -> Option<Result<u64, Unended>> {
    match ran {
        Ok(Running::Made(_)) => None,
        Ok(Running::Ended(last)) => Some(Ok(moves_in(parts, last))),
        Ok(Running::Stopped(_, refusal)) => Some(Err(Unended::Refused(refusal))),
        Err(refusal) => Some(Err(Unended::Refused(refusal))),
    }
}

// Runs of 4,096 moves are made until one does not make them all: the engine as this leaves it, and the moves to the end. The
// bytes of the moves are left.
fn run(fresh: Engine, total: u64) -> (Engine, Result<u64, Unended>) {
    let mut bytes = [0u8; 4096];
    let mut engine = fresh;
    for parts in 0..=total / 4096 {
        let (next, ran) = engine.run(4096, &mut bytes);
        engine = next;
        if let Some(ended) = outcome(parts, ran) {
            return (engine, ended);
        }
    }
    (engine, Err(Unended::Unfinished))
}

fn print_number(n: u64) {
    io::print_decimal(1, n);
}

fn print_refused(refusal: Refusal) {
    print(b"refused ");
    print_number(u64::from(u8::from(refusal)));
    print(b"\n");
}

// A setting: its first n digits, the last of them first, joined by points. (That n is at most 48 stands at each caller too: a type
// for it would be no plainer.)
fn print_word(word: [u8; DIGITS], n: usize)
    requires { n ≤ 48 }
{
    for i in (0..n).rev() {
        print_number(u64::from(word[i]));
        if 0 < i {
            print(b".");
        }
    }
}

fn print_ended(n: usize, moves: u64, word: [u8; DIGITS])
    requires { n ≤ 48 }
{
    print(b"moves ");
    print_number(moves);
    print(b" last ");
    print_word(word, n);
    print(b"\n");
}

// The walk of an engine on n digits that was opened, or its refusal: `total` is N.
fn walk(opened: Result<(), Refusal>, fresh: Engine, n: usize, total: u64)
    requires { n ≤ 48 }
{
    if let Err(refusal) = opened {
        print_refused(refusal);
        return;
    }
    let (engine, ended) = run(fresh, total);
    match ended {
        Ok(moves) => print_ended(n, moves, engine.setting()),
        Err(Unended::Refused(refusal)) => print_refused(refusal),
        Err(Unended::Unfinished) => print(b"unfinished\n"),
    }
}

// The two walks of a survey.
fn walk_both(radices: &[u8]) -> Result<(), Refusal> {
    let total = gray::size(radices)?;
    let n = radices.len();
    print(b"buffer ");
    let (buffered, opened) = Walk::closed().open(radices, n.div_ceil(2));
    walk(opened, Engine::of_walk(buffered), n, total);
    print(b"disks ");
    let (disks, opened) = Towers::closed().open(radices);
    walk(opened, Engine::of_towers(disks), n, total);
    Ok(())
}

fn main() {
    let mut line = [0u8; 256];
    let got = io::read_full(0, &mut line);
    let reader = Reader::fresh().read(&line[..got]);
    let Found::Counts(n) = reader.found() else {
        print(b"unread\n");
        return;
    };
    if let Err(refusal) = walk_both(&reader.counts[..n]) {
        print_refused(refusal);
    }
}
