// Single digits: the byte of a move, the range rule and the move that both engines make, and bytes as an engine's array.

#![tactic(auto)]

ghost use Rattle.std.specs.Prelude.{◌≡◌, ◌<◌, ◌+◌, ◌&&◌, ◌||◌, eqb, ltb, leb, length, take, get_or};
ghost use Rattle.gray_theory.specs.Directions.{turned_at, digit_in_range, digits_in_range, all_below};
ghost use Rattle.gray_theory.specs.Locks.{moving_digits as movingDigitsOf, moving_in_range};
ghost use Rattle.gray_theory.specs.Arrays.{digit_array};
ghost use Rattle.gray_theory.specs.MoveBytes.{move_byte, move_digit, move_down};
ghost use Rattle.digit.specs.Advances.{advanced_from};
ghost use Rattle.digit.specs.Moving.{moving_as};

use gray::DIGITS;

// The most digits as a byte.
pub const MOST: u8 = DIGITS as u8;

// A digit with its direction, which is there at every digit.
#[derive(Clone, Copy)]
pub struct Directed {
    pub digit: u8,
    pub down: bool,
}

impl Directed {
    // The range rule for one digit of radix m.
    fn in_range(self, m: u8) -> bool
        ensures { result ≡ digit_in_range m self.digit self.down }
    {
        let top = if m == 0 { 0 } else { m - 1 };
        (self.digit < m)
            & (!((self.digit == 0) & self.down) & !((2 <= m) & ((self.digit == top) & !self.down)))
    }

    // A digit of radix m where it stands, with the direction that it goes on in, which turns at either end.
    fn turned(self, m: u8) -> Directed
        requires { 0 < m }
        ensures { result ≡ record { digit = self.digit; down = turned_at m self.digit self.down } }
    {
        let end = (self.digit == 0) | (self.digit == m - 1);
        Directed {
            digit: self.digit,
            down: if end { !self.down } else { self.down },
        }
    }
}

// A move as a byte: the digit in the low seven bits, the top bit set for down.
pub fn move_byte(digit: u8, down: bool) -> u8
    ensures { result ≡ move_byte digit down }
{
    (digit & 127) | (u8::from(down) << 7)
}

pub fn move_digit(byte: u8) -> u8
    ensures { result ≡ move_digit byte }
{
    byte & 127
}

pub fn move_down(byte: u8) -> bool
    ensures { result ≡ move_down byte }
{
    byte >> 7 == 1
}

// A digit in range, or one past the n that count.
fn passes(n: u8, number: u8, m: u8, digit: Directed) -> bool
    ensures { result ≡ (ltb n number || digit_in_range m digit.digit digit.down) }
{
    (n < number) | digit.in_range(m)
}

// The range rule for the setting and the directions of n digits, which both engines keep; where n is over 48, of all that the
// arrays hold. The loop goes over all places, whatever n is, and gathers its tests with no way out in between: three turns on
// vectors. (n and arrays, here and below, as the states of both engines have them: memory is fixed, and docs/CALLS.md names them.)
pub fn digits_in_range(
    n: u8,
    radices: [u8; DIGITS],
    word: [u8; DIGITS],
    downs: [bool; DIGITS],
) -> bool
    ensures { result ≡ digits_in_range (length (take n radices)) radices word downs }
{
    let mut ok = true;
    // Counted beside the index for speed: a number made of the index is compared as 64 bits, and the loop takes twice as long.
    let mut number: u8 = 0;
    for i in 0..DIGITS {
        number += 1;
        let digit = Directed {
            digit: word[i],
            down: downs[i],
        };
        ok &= passes(n, number, radices[i], digit);
    }
    ok
}

// The move that both engines make: a digit goes one notch in its direction, which turns at either end. One that is locked or out of
// range stays.
pub fn advanced(m: u8, a: u8, down: bool) -> Directed
    ensures { result ≡ advanced_from m a down }
{
    let stands = Directed { digit: a, down };
    if m < 2 {
        return stands;
    }
    if !stands.in_range(m) {
        return stands;
    }
    let to = if down { a - 1 } else { a + 1 };
    Directed { digit: to, down }.turned(m)
}

// The digits of an engine's survey that move, in rising order, and how many they are: an array and its count, since an engine's
// state is a value of fixed memory.
#[derive(Clone, Copy)]
pub struct MovingDigits {
    pub digits: [u8; DIGITS],
    pub count: u8,
}

// The digits that move, of radices with digit 1 first; a 49th radix and later ones are left out.
pub fn moving(radices: &[u8]) -> MovingDigits
    ensures { moving_as result ≡ movingDigitsOf (take 48 radices.now) }
{
    // The count stands apart from the digits for speed: in one struct with them it is stored and loaded again at each digit.
    let mut digits = [0; DIGITS];
    let mut count: u8 = 0;
    for i in 0..radices.len().min(DIGITS) {
        let unlocked = 2 <= radices[i];
        if unlocked {
            digits[usize::from(count)] = i as u8 + 1;
            count += 1;
        }
    }
    MovingDigits { digits, count }
}

// A digit that moves and is held at its own place, or one past the n that count.
fn moves(n: u8, number: u8, m: u8, held: u8) -> bool
    ensures { result ≡ (ltb n number || (leb 2 m && eqb held number)) }
{
    (n < number) | ((2 <= m) & (held == number))
}

// Each of n digits moves, and is held at its own place. One loop over all places, as above.
fn all_move(n: u8, radices: [u8; DIGITS], held: [u8; DIGITS]) -> bool
    ensures { result ≡ all_below (length (take n radices)) (λ i. leb 2 (get_or radices i 0) && eqb (get_or held i 0) (i + 1)) }
{
    let mut ok = true;
    let mut number: u8 = 0;
    for i in 0..DIGITS {
        number += 1;
        ok &= moves(n, number, radices[i], held[i]);
    }
    ok
}

// The digits that are held to move are those that do, whichever they are.
fn are_moving(n: u8, radices: [u8; DIGITS], stored: MovingDigits) -> bool
    ensures { result ≡ moving_in_range (take n radices) (moving_as stored) }
{
    let held = stored.digits;
    let mut met = 0;
    let mut ok = true;
    for i in 0..usize::from(n).min(DIGITS) {
        let m = radices[i];
        let number = i as u8 + 1;
        if 2 <= m {
            ok &= held[met] == number;
            met += 1;
        }
    }
    ok & (met == usize::from(stored.count))
}

// The range rule for the digits that move, of n radices with digit 1 first. Where as many are held as there are digits, each must
// move.
pub fn moving_in_range(n: u8, radices: [u8; DIGITS], stored: MovingDigits) -> bool
    ensures { result ≡ moving_in_range (take n radices) (moving_as stored) }
{
    if (stored.count == n) & (n <= MOST) {
        return all_move(n, radices, stored.digits);
    }
    are_moving(n, radices, stored)
}

// Lent bytes as an engine's array: digit 1 first, zeros in the places past the digits.
pub fn reversed(bytes: &[u8]) -> [u8; DIGITS]
    ensures { result ≡ digit_array bytes.now }
{
    let mut out = [0; DIGITS];
    let n = bytes.len();
    for i in 0..n.min(DIGITS) {
        out[i] = bytes[n - 1 - i];
    }
    out
}
