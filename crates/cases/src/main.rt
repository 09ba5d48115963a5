// A table of calls and their outcomes: each refusal from both sides, and document 01's cases. The input has one call a line;
// each line is printed, and after it `: ` and the outcome. An empty line, and one that starts with `#`, is printed as it is.
// A line that cannot be read has the outcome `unread`.
//
//     size RADICES                            N, and the number that a caller passes on
//     rank RADICES, WORD                      a word's rank
//     word RADICES, RANK, LENT                a rank's word
//     list RADICES, FROM, COUNT, LENT         the words from a rank on
//     up DIGIT                                a move's byte, and what its two readers make of it
//     down DIGIT
//     write RADICES, CAPACITY, MOVES, LENT    the log of the first moves
//     read BYTES                              a log's number of moves, and its records of moves
//     walk open RADICES, CAPACITY             the buffered engine
//     walk resume RADICES, CAPACITY, WORD     a survey picked up at a word
//     walk step
//     walk run MOVES, LENT                    a run of moves
//     disks open RADICES                      the disk engine
//     disks step
//     disks run MOVES, LENT
//
// Radices and words have digit n first. A writer is lent LENT bytes of 9, 256 at the most; they are printed as they are
// afterwards. The states of both engines are kept from line to line, and at first no survey is open. A step, a run and a walk
// that is picked up print the state that they hand back. Between calls one field of a state can be changed, to make up another;
// such a line has no outcome:
//
//     walk FIELD, VALUE                       n, moving, capacity, place, queued, steps, moves, ended
//     walk FIELD NUMBER, VALUE                radix, number, digit, down, counter, entry
//     disks FIELD, VALUE                      n, moving, turn
//     disks FIELD NUMBER, VALUE               radix, number, digit, down, peg
//
// Digits are numbered from 1, and so are the queue's entries, the oldest first, and the digits that move, the fastest first:
// `moving` says how many they are, and `number` gives the number of each. For `down` (a direction) and `ended` 1 is yes.

#![tactic(auto)]

use ahead::Walk;
use print::{print, print_bytes};
use towers::Towers;
use words::{Given, known, read_list, split_word};

mod buffered;
mod disks;
mod plain;
mod print;
mod words;

// The states of both engines.
#[derive(Clone, Copy)]
struct Held {
    walk: Walk,
    towers: Towers,
}

#[derive(Clone, Copy, Debug, PartialEq, Eq)]
enum Engine {
    Walk,
    Disks,
}

impl Held {
    // A run's line has two numbers, neither of them a byte.
    fn run(&mut self, engine: Engine, text: &[u8]) -> Option<()> {
        let mut numbers = [0u64; 2];
        let &[moves, lent] = read_list(text, &mut numbers)? else {
            return None;
        };
        match engine {
            Engine::Walk => buffered::run(&mut self.walk, moves, lent),
            Engine::Disks => disks::run(&mut self.towers, moves, lent),
        }
        Some(())
    }

    // The call that a name and the rest of its line say, or none where they say none.
    fn call(&mut self, engine: Option<Engine>, name: &[u8], text: &[u8]) -> Option<()> {
        if let (Some(engine), b"run") = (engine, name) {
            return self.run(engine, text);
        }
        let mut list = [0u8; 256];
        let mut numbers = [0u64; 64];
        let given = Given::read(text, &mut list, &mut numbers)?;
        match engine {
            Some(Engine::Walk) => buffered::call(&mut self.walk, name, given),
            Some(Engine::Disks) => disks::call(&mut self.towers, name, given),
            None => plain::call(name, given),
        }
    }

    // A line begins with an engine's name or none, and then the call's name.
    fn call_line(&mut self, line: &[u8]) -> Option<()> {
        let (first, rest) = split_word(line);
        let engine = match known(first) {
            b"walk" => Engine::Walk,
            b"disks" => Engine::Disks,
            name => return self.call(None, name, rest),
        };
        let (second, text) = split_word(rest.get(1..)?);
        self.call(Some(engine), known(second), text)
    }

    // A line that is empty or a heading is only printed.
    fn print_and_call(&mut self, line: &[u8]) {
        print_bytes(line);
        if let [] | [b'#', ..] = line {
            return;
        }
        if self.call_line(line).is_none() {
            print(": unread");
        }
    }
}

fn run(lines: &[u8]) {
    let mut held = Held {
        walk: Walk::closed(),
        towers: Towers::closed(),
    };
    for line in lines.split_inclusive(|&byte| byte == b'\n') {
        held.print_and_call(line.strip_suffix(b"\n").unwrap_or(line));
        print("\n");
    }
}

fn main() {
    let mut lines = [0u8; 32768];
    let got = io::read_full(0, &mut lines);
    run(&lines[..got]);
}
