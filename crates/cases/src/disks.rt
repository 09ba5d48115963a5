// The calls of the disk engine, and changes of its state. (Beside those of the buffered one: their fields have other names, and
// a trait over both would be longer than what they share.)

use crate::print::{Ran, Stepped, print_answer, print_lent, print_opening, print_towers};
use crate::words::Given;
use towers::Towers;

fn step(towers: &mut Towers) {
    let (next, answer) = towers.step();
    *towers = next;
    print_answer(answer.map(Stepped));
    print_towers(towers);
}

fn open(towers: &mut Towers, radices: &[u8]) {
    let (next, answer) = towers.open(radices);
    *towers = next;
    print_opening(answer);
}

pub(crate) fn run(towers: &mut Towers, moves: u64, lent: u64) {
    print_lent(lent, |out| {
        let (next, answer) = towers.run(moves, out);
        *towers = next;
        answer.map(Ran)
    });
    print_towers(towers);
}

// Changes the byte of a field that a line names: a single one, or that of a digit.
fn set(towers: &mut Towers, name: &[u8], index: Option<usize>, value: u8) -> Option<()> {
    match (name, index) {
        (b"n", None) => towers.n = value,
        (b"moving", None) => towers.moving.count = value,
        (b"turn", None) => towers.turn = value,
        (b"radix", Some(i)) => *towers.radices.get_mut(i)? = value,
        (b"number", Some(i)) => *towers.moving.digits.get_mut(i)? = value,
        (b"digit", Some(i)) => *towers.word.get_mut(i)? = value,
        (b"down", Some(i)) => *towers.downs.get_mut(i)? = value == 1,
        (b"peg", Some(i)) => *towers.pegs.get_mut(i)? = value,
        _ => return None,
    }
    Some(())
}

pub(crate) fn call(towers: &mut Towers, name: &[u8], given: Given) -> Option<()> {
    match (name, given.numbers) {
        (b"step", _) => step(towers),
        (b"open", _) => open(towers, given.list),
        (_, &[value]) => set(towers, name, given.index(), u8::try_from(value).ok()?)?,
        _ => return None,
    }
    Some(())
}
