// The calls that no engine is for.

use crate::print::{Items, direction, print, print_answer, print_lent};
use crate::words::{Given, narrow};

fn size_case(radices: &[u8]) {
    let counted = gray::size(radices);
    print_answer(counted);
    print(format_args!("; number {}", gray::number(counted)));
}

fn rank_case(radices: &[u8], numbers: &[u64]) -> Option<()> {
    let mut word = [0u8; 64];
    print_answer(gray::rank(radices, narrow(numbers, &mut word)?));
    Some(())
}

// What a log is read as, and the part of it that holds the moves.
fn read_case(log: &[u8]) {
    print_answer(movelog::read(log));
    print(format_args!(";{}", Items(movelog::moves(log))));
}

fn move_case(digits: &[u8], down: bool) -> Option<()> {
    let &[digit] = digits else {
        return None;
    };
    let byte = digit::move_byte(digit, down);
    let read = digit::move_digit(byte);
    print(format_args!(
        ": {byte}; digit {read} {}",
        direction(digit::move_down(byte))
    ));
    Some(())
}

pub(crate) fn call(name: &[u8], given: Given) -> Option<()> {
    let list = given.list;
    match (name, given.numbers) {
        (b"rank", numbers) => rank_case(list, numbers)?,
        (b"size", []) => size_case(list),
        (b"read", []) => read_case(list),
        (b"up", []) => move_case(list, false)?,
        (b"down", []) => move_case(list, true)?,
        (b"word", &[rank, lent]) => print_lent(lent, |out| gray::word(list, rank, out)),
        (b"list", &[from, count, lent]) => {
            print_lent(lent, |out| lister::list(list, from, count, out))
        }
        (b"write", &[capacity, moves, lent]) => {
            print_lent(
                lent,
                |out| movelog::write(list, capacity as usize, moves, out),
            )
        }
        _ => return None,
    }
    Some(())
}
