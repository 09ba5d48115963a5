// The disk engine: it walks the list of a mixed-radix Gray code by a game of disks on pegs, one disk for each digit that moves.
// Arrays in its state have digit 1, the fastest, first. Disks are numbered among the digits that move, and disk 1 is the
// smallest; disk i + 1 stands at index i.

#![tactic(auto)]

ghost use Rattle.std.specs.Prelude.{◌≡◌, ℕ, Bool, true, cond, ◌&&◌, not, ◌+◌, ◌-◌, ◌≤◌, ◌<◌, eqb, leb, length, take, get_or};
ghost use Rattle.std.proofs.Math.Option.{some};
ghost use Rattle.gray_theory.specs.Directions.{all_below, digit_in_range};
ghost use Rattle.gray_theory.specs.DirectedWords.{fresh_with};
ghost use Rattle.digit.specs.Advances.{advanced_from};
ghost use Rattle.digit.specs.Moving.{moving_as};
ghost use Rattle.towers_theory.specs.States.{disks, in_range};
ghost use Rattle.towers_theory.specs.Choices.{side_peg, on_pair, sweeping, smallest, chosen};
ghost use Rattle.towers_theory.specs.Calls.{fresh_on, closed_towers, open_of, turn_by, peg_after, move_of, step_of, run_of};
ghost use Rattle.towers.specs.Structs.{towers_as, opened_as, stepped_as, ran_as};
ghost use Rattle.towers.specs.Stages.{found, plays, TestsBytes, last_radix, DigitAt, PairDisks, survey_fits};
ghost use Rattle.towers.specs.Stages.{state_of, Movable, DigitMoved, Playing, Called};

use digit::{Directed, MovingDigits};
use gray::{DIGITS, Refusal, Running, Stepping};

// The state: the survey (radices and their number n), the word (setting), the turn, the directions (down or not), the digits
// that move, in rising order, and the pegs. For odd radices the turn says which pair of pegs is next, 0 for the left one; a
// disk's peg follows from its digit, and the array of pegs plays no part. For even ones the turn counts the moves of disk 1 in
// its sweep, and each disk's peg is stored. (Arrays with counts: document 01's state, in fixed memory.)
#[derive(Clone, Copy)]
pub struct Towers {
    pub radices: [u8; DIGITS],
    pub n: u8,
    pub word: [u8; DIGITS],
    pub turn: u8,
    pub downs: [bool; DIGITS],
    pub moving: MovingDigits,
    pub pegs: [u8; DIGITS],
}

// Whether each of the first n bytes passes a test; where n is over 48, each of all. The loop goes over all places, whatever n
// is, and gathers its tests with no way out in between: three turns on vectors.
fn all_pass<F: Fn(u8) -> bool>(n: u8, bytes: [u8; DIGITS], passes: F) -> bool
    requires { F.IsAlwaysCallable passes }
    ensures { (test : ℕ → Bool) → TestsBytes (F.post passes) test
        → result ≡ all_below (length (take n bytes)) (λ i. test (get_or bytes i 0)) }
{
    let mut ok = true;
    // The number is counted beside the byte for speed: made of the index, it is compared as 64 bits.
    let mut number: u8 = 0;
    for byte in bytes {
        number += 1;
        ok &= (n < number) | passes(byte);
    }
    ok
}

// Whether a radix goes with m, that of the last disk. Locked digits go with every game, and odd radices with each other; an
// even one wants its like.
fn radix_plays(m: u8, radix: u8) -> bool
    ensures { result ≡ plays m radix }
{
    (radix < 2) | ((radix == m) | ((m % 2 != 0) & (radix % 2 != 0)))
}

// Whether the game is played with n radices.
fn radices_play(n: u8, m: u8, radices: [u8; DIGITS]) -> bool
    ensures { result ≡ all_below (length (take n radices)) (λ i. plays m (get_or radices i 0)) }
{
    all_pass(n, radices, |radix| radix_plays(m, radix))
}

// The pegs of all disks are on a ring of m + 1.
fn pegs_within(count: u8, m: u8, pegs: [u8; DIGITS]) -> bool
    ensures { result ≡ all_below (length (take count pegs)) (λ i. leb (get_or pegs i 0) m) }
{
    all_pass(count, pegs, |peg| peg <= m)
}

// The index of a disk's digit. Where all digits move (free) it is the disk's own, and a look into the array would be a wait.
fn index_at(free: bool, digits: &[u8], i: usize) -> usize
    requires { DigitAt free digits.now i }
    ensures { result + 1 ≡ get_or digits.now i 0 }
{
    if free { i } else { usize::from(digits[i]) - 1 }
}

// Odd radices: a disk is on the left two of the three pegs unless its digit is m - 1, and on the right two unless it is 0.
fn on_pair(turn: u8, m: u8, a: u8) -> bool
    requires { 2 ≤ m }
    ensures { result ≡ on_pair turn (side_peg m a) }
{
    if turn == 0 { a != m - 1 } else { a != 0 }
}

// The index of the smallest disk on the two pegs of the turn, if there is one. The disks' digits are given by their numbers.
fn first_on_pair(radices: &[u8], word: &[u8], free: bool, digits: &[u8], turn: u8) -> Option<usize>
    requires { PairDisks radices.now word.now free digits.now }
    ensures { found result
        ≡ smallest (length digits.now)
        (λ i. on_pair turn
        (side_peg (get_or radices.now (get_or digits.now i 0 - 1) 0)
        (get_or word.now (get_or digits.now i 0 - 1) 0))) }
{
    for i in 0..digits.len() {
        let at = index_at(free, digits, i);
        if on_pair(turn, radices[at], word[at]) {
            return Some(i);
        }
    }
    None
}

// The index of the smallest disk that is not on disk 1's peg, if there is one; it is a top disk.
fn first_elsewhere(pegs: &[u8]) -> Option<usize>
    requires { 0 < length pegs.now }
    ensures { found result
        ≡ smallest (length pegs.now)
        (λ i. not (eqb (get_or pegs.now i 0) (get_or pegs.now 0 0))) }
{
    let first = pegs[0];
    for i in 1..pegs.len() {
        if pegs[i] != first {
            return Some(i);
        }
    }
    None
}

// The index of the disk that moves on a ring: disk 1 in its sweep, whose moves the turn counts, and then the smallest one
// elsewhere, if there is one.
fn first_on_ring(m: u8, sweep: u8, pegs: &[u8]) -> Option<usize>
    requires { (0 < m) × (0 < length pegs.now) }
    ensures { found result
        ≡ cond (sweeping m sweep) (some 0)
        (smallest (length pegs.now)
        (λ i. not (eqb (get_or pegs.now i 0) (get_or pegs.now 0 0)))) }
{
    if sweep < m - 1 {
        return Some(0);
    }
    first_elsewhere(pegs)
}

// The peg that disk i + 1 goes to on a ring of m + 1.
fn next_peg(m: u8, i: usize, peg: u8) -> u8
    requires { (i < 48) × (peg ≤ m) }
    ensures { result ≡ peg_after m i peg }
{
    if (i + 1) % 2 == 0 {
        if peg == 0 { m } else { peg - 1 }
    } else {
        if peg == m { 0 } else { peg + 1 }
    }
}

fn next_turn(odd: bool, m: u8, turn: u8) -> u8
    requires { (turn < cond odd 2 m) × (0 < m) }
    ensures { result ≡ turn_by odd m turn }
{
    if odd {
        return 1 - turn;
    }
    if turn < m - 1 { turn + 1 } else { 0 }
}

// A digit in range has a notch to move to. It turns at either end, so that on its way down it looks out for 0 alone, and on its
// way up for m - 1.
fn forward(m: u8, a: u8, down: bool) -> Directed
    requires { leb 2 m && digit_in_range m a down ≡ true }
    ensures { result ≡ advanced_from m a down }
{
    if down {
        return Directed {
            digit: a - 1,
            down: a != 1,
        };
    }
    Directed {
        digit: a + 1,
        down: a + 2 == m,
    }
}

// The move of a digit in lent arrays, and its byte.
fn move_digit(radices: &[u8], at: usize, word: &mut [u8], downs: &mut [bool]) -> u8
    requires { Movable radices.now at word.old downs.old }
    ensures { DigitMoved radices.now at word.old downs.old result word.new
        downs.new }
{
    let a = word[at];
    let down = downs[at];
    let next = forward(radices[at], a, down);
    word[at] = next.digit;
    downs[at] = next.down;
    digit::move_byte(at as u8 + 1, down)
}

// What stays the same in a run: the radix that tells the game, the radices, how many digits there are, the numbers of those that
// move, and how many those are. (An array and its count, as a state has them: its memory is fixed.)
#[derive(Clone, Copy)]
struct Game<'a> {
    m: u8,
    radices: &'a [u8],
    n: u8,
    digits: &'a [u8],
    count: u8,
}

impl<'a> Game<'a> {
    // One call of a run, in lent arrays: the byte of its move and the turn after it, if it finds a disk. (One search for both
    // games, and one move, would take 1.5 times as long.)
    fn play(
        self,
        word: &mut [u8],
        turn: u8,
        downs: &mut [bool],
        pegs: &mut [u8],
    ) -> Option<(u8, u8)>
        requires { Playing self.m
            (state_of self.radices.now self.n self.digits.now self.count word.old turn downs.old
            pegs.old) }
        ensures { Called
            (step_of
            (state_of self.entry.radices.now self.entry.n self.entry.digits.now self.entry.count word.old turn downs.old
            pegs.old))
            (λ next. state_of self.entry.radices.now self.entry.n self.entry.digits.now self.entry.count word.new next downs.new
            pegs.new)
            turn
            result }
    {
        let Game {
            m,
            radices,
            n,
            digits,
            count,
        } = self;
        let free = count == n;
        let most = usize::from(count);
        let odd = m % 2 != 0;
        if odd {
            let i = first_on_pair(radices, word, free, &digits[..most], turn)?;
            let at = index_at(free, digits, i);
            return Some((move_digit(radices, at, word, downs), 1 - turn));
        }
        let i = first_on_ring(m, turn, &pegs[..most])?;
        pegs[i] = next_peg(m, i, pegs[i]);
        let at = index_at(free, digits, i);
        Some((
            move_digit(radices, at, word, downs),
            next_turn(false, m, turn),
        ))
    }
}

// The state that opening gives: the word all 0, the directions all up, the left pair's turn or a sweep's start, all disks on
// peg 0.
fn fresh(radices: [u8; DIGITS], n: u8, moving: MovingDigits) -> Towers
    ensures { towers_as result ≡ fresh_on (fresh_with radices n (moving_as moving)) }
{
    Towers {
        radices,
        n,
        moving,
        word: [0; DIGITS],
        turn: 0,
        downs: [false; DIGITS],
        pegs: [0; DIGITS],
    }
}

// Methods take the arrays that they read into locals for speed: read from self, a call takes 1.3 times as long.
impl Towers {
    // The state of no survey: every call on it gets 7.
    pub fn closed() -> Towers
        ensures { towers_as result ≡ closed_towers }
    {
        let none = MovingDigits {
            digits: [0; DIGITS],
            count: 0,
        };
        fresh([0; DIGITS], 0, none)
    }

    // Refused: the state that came, and why. Accepted: the fresh state, whatever came.
    // (By `let .. else`: document 01 names that form for a stage of refusals.)
    pub fn open(self, radices: &[u8]) -> (Towers, Result<(), Refusal>)
        ensures { opened_as result ≡ open_of (towers_as self) radices.now }
    {
        let counted = gray::size(radices);
        let Ok(_) = counted else {
            return (self, Err(counted.unwrap_err()));
        };
        let n = radices.len();
        let digits = digit::reversed(radices);
        let moving = digit::moving(&digits[..n]);
        let towers = fresh(digits, n as u8, moving);
        let m = towers.last_radix();
        if !radices_play(towers.n, m, digits) {
            return (self, Err(Refusal::Game));
        }
        (towers, Ok(()))
    }

    // The survey is within its limits, and the digits that move are its own.
    fn survey_fits(self) -> bool
        ensures { result ≡ survey_fits (towers_as self) }
    {
        if digit::MOST < self.n {
            return false;
        }
        let n = usize::from(self.n);
        let radices = self.radices;
        if gray::size(&radices[..n]).is_err() {
            return false;
        }
        let moving = self.moving;
        digit::moving_in_range(self.n, radices, moving)
    }

    // The radix that tells the game that is played: that of the last disk; where there is no disk, 1, which is odd. (At an
    // index that is known beforehand the compiler takes the array apart, and each call copies it more slowly.)
    fn last_radix(self) -> u8
        requires { survey_fits (towers_as self) ≡ true }
        ensures { result ≡ last_radix (disks (towers_as self)) }
    {
        let moving = self.moving;
        let count = usize::from(moving.count);
        if count == 0 {
            return 1;
        }
        let radices = self.radices;
        let digits = moving.digits;
        let at = index_at(moving.count == self.n, &digits, count - 1);
        radices[at]
    }

    fn in_range(self) -> bool
        ensures { result ≡ in_range (towers_as self) }
    {
        if !self.survey_fits() {
            return false;
        }
        let moving = self.moving;
        let radices = self.radices;
        let word = self.word;
        let downs = self.downs;
        let pegs = self.pegs;
        let m = self.last_radix();
        let notches = digit::digits_in_range(self.n, radices, word, downs);
        let played = radices_play(self.n, m, radices);
        let odd = m % 2 != 0;
        if odd {
            return (notches & played) & (self.turn < 2);
        }
        (notches & played) & ((self.turn < m) & pegs_within(moving.count, m, pegs))
    }

    // The index of the disk that the call moves, if there is one.
    fn choose(self) -> Option<usize>
        requires { in_range (towers_as self) ≡ true }
        ensures { found result ≡ chosen (towers_as self) }
    {
        let moving = self.moving;
        let most = usize::from(moving.count);
        let m = self.last_radix();
        let odd = m % 2 != 0;
        if odd {
            let radices = self.radices;
            let word = self.word;
            let digits = moving.digits;
            let free = moving.count == self.n;
            return first_on_pair(&radices, &word, free, &digits[..most], self.turn);
        }
        let pegs = self.pegs;
        first_on_ring(m, self.turn, &pegs[..most])
    }

    // One call: a disk is chosen and moves, and its digit with it.
    pub fn step(self) -> (Towers, Result<Stepping, Refusal>)
        ensures { stepped_as result ≡ step_of (towers_as self) }
    {
        if !self.in_range() {
            return (self, Err(Refusal::State));
        }
        let chosen = self.choose();
        let Some(i) = chosen else {
            return (self, Ok(Stepping::End));
        };
        self.advance(i)
    }

    // The move of the disk at index i, and of its digit.
    fn advance(self, i: usize) -> (Towers, Result<Stepping, Refusal>)
        requires { (in_range (towers_as self) ≡ true) × (i < self.moving.count) }
        ensures { stepped_as result ≡ move_of (towers_as self) i }
    {
        let radices = self.radices;
        let moving = self.moving;
        let digits = moving.digits;
        let mut word = self.word;
        let mut downs = self.downs;
        let mut pegs = self.pegs;
        let m = self.last_radix();
        let odd = m % 2 != 0;
        let at = index_at(moving.count == self.n, &digits, i);
        let k = at as u8 + 1;
        let a = word[at];
        let down = downs[at];
        let peg = pegs[i];
        let to = digit::advanced(radices[at], a, down);
        word[at] = to.digit;
        downs[at] = to.down;
        pegs[i] = if odd { peg } else { next_peg(m, i, peg) };
        let towers = Towers {
            word,
            turn: next_turn(odd, m, self.turn),
            downs,
            pegs,
            ..self
        };
        (towers, Ok(Stepping::Moved(k, down, to.digit)))
    }

    // At most t calls, up to the first that does not move: one byte a move in `out`, which has to hold t bytes.
    pub fn run(self, t: u64, out: &mut [u8]) -> (Towers, Result<Running, Refusal>)
        ensures { ran_as result out.new ≡ run_of (towers_as self) t out.old }
    {
        if !self.in_range() {
            return (self, Err(Refusal::State));
        }
        if (out.len() as u64) < t {
            return (self, Err(Refusal::Output));
        }
        let m = self.last_radix();
        self.calls(m, t as usize, out)
    }

    // The calls of a run: the range rule is kept by each, so that it is not tested again, and the arrays are local ones.
    fn calls(self, m: u8, t: usize, out: &mut [u8]) -> (Towers, Result<Running, Refusal>)
        requires { Playing m (towers_as self) × (t ≤ length out.old) }
        ensures { ran_as result out.new ≡ run_of (towers_as self) t out.old }
    {
        let radices = self.radices;
        let moving = self.moving;
        let digits = moving.digits;
        let mut word = self.word;
        let mut turn = self.turn;
        let mut downs = self.downs;
        let mut pegs = self.pegs;
        let game = Game {
            m,
            radices: &radices,
            n: self.n,
            digits: &digits,
            count: moving.count,
        };
        for k in 0..t {
            let made = game.play(&mut word, turn, &mut downs, &mut pegs);
            let Some((byte, next)) = made else {
                let towers = Towers {
                    word,
                    turn,
                    downs,
                    pegs,
                    ..self
                };
                return (towers, Ok(Running::Ended(k as u64)));
            };
            out[k] = byte;
            turn = next;
        }
        let towers = Towers {
            word,
            turn,
            downs,
            pegs,
            ..self
        };
        (towers, Ok(Running::Made(t as u64)))
    }
}
