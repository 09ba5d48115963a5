// The reflected mixed-radix Gray code: sizes, ranks and words.
// Radices and words are lent bytes with digit n first; digit 1 is the fastest.

#![tactic(auto)]

ghost use Rattle.std.specs.Prelude.{◌≡◌, true, ◌+◌, ◌^◌, ◌*◌, ◌≤◌, ◌<◌, length, get_or};
ghost use Rattle.gray_theory.specs.Answers.{number_of, Wrote};
ghost use Rattle.gray_theory.specs.Radices.{digits, size as size_of, all_from};
ghost use Rattle.gray_theory.specs.Words.{reflect as reflected};
ghost use Rattle.gray_theory.specs.Calls.{size_call, survey_call, rank_call, word_call};
ghost use Rattle.gray.specs.Enums.{refusal_number, answer_as};
ghost use Rattle.gray.specs.Stages.{product_as, Multiplied, digit_as, pair_as, Rankable, place_as, Room, put_word};

// Why a call turns down what it is given, in the order of the numbers that documents 01 and 02 give: a log that is laid out as none
// is; digits, a radix, the size and the capacity of a survey; a survey that the disk engine has no game for; a state out of range;
// a word (setting) or a rank; an output that is too short; an empty queue; a log that is of no moves; a harbour file's line, and
// the order of its lines.
#[derive(Clone, Copy, Debug, PartialEq, Eq)]
pub enum Refusal {
    Layout,
    Digits,
    Radix,
    Size,
    Capacity,
    Game,
    State,
    Word,
    Output,
    Dry,
    Log,
    Line,
    Order,
}

// What a call of an engine answers: the digit that it moved, whether that went down, and the notch that it has come to; or the end
// of the walk. (No Option: the end is an answer of its own, after which a walk answers it again.)
#[derive(Clone, Copy, Debug, PartialEq, Eq)]
pub enum Stepping {
    Moved(u8, bool, u8),
    End,
}

// What a run of moves answers: so many, all that were asked for; the end of the walk after so many; or a call refused after so
// many.
#[derive(Clone, Copy, Debug, PartialEq, Eq)]
pub enum Running {
    Made(u64),
    Ended(u64),
    Stopped(u64, Refusal),
}

// The most digits of a word (sluices of a survey), and the most places of a work-ahead buffer.
pub const DIGITS: usize = 48;

pub const CAPACITY: usize = 32;

const LIMIT: u64 = 0x4000_0000_0000_0000;

// The refusal's number.
impl From<Refusal> for u8 {
    ghost from_gives = { λ refusal k. k ≡ refusal_number refusal };

    fn from(refusal: Refusal) -> u8 {
        match refusal {
            Refusal::Layout => 1,
            Refusal::Digits => 2,
            Refusal::Radix => 3,
            Refusal::Size => 4,
            Refusal::Capacity => 5,
            Refusal::Game => 6,
            Refusal::State => 7,
            Refusal::Word => 8,
            Refusal::Output => 9,
            Refusal::Dry => 10,
            Refusal::Log => 11,
            Refusal::Line => 12,
            Refusal::Order => 13,
        }
    }
}

// The number of an answer's refusal; 0 where there is none. (No Option: its promise, `number_of`, has that 0.)
pub fn number<T: Copy>(answer: Result<T, Refusal>) -> u8
    ensures { result ≡ number_of (answer_as answer) }
{
    match answer {
        Ok(_) => 0,
        Err(refusal) => u8::from(refusal),
    }
}

fn none_zero(radices: &[u8]) -> bool
    ensures { result ≡ all_from 1 (digits radices.now) }
{
    radices.iter().all(|&m| 1 <= m)
}

// Of at most eight radices, so 64 bits hold it: 255^8 is below 2^64.
fn product_of_few(radices: &[u8]) -> u64
    requires { length radices.now ≤ 8 }
    ensures { (result ≡ size_of (digits radices.now)) × (result ≤ 255 ^ length radices.now) }
{
    let mut p: u64 = 1;
    for &m in radices {
        p = u64::from(m) * p;
    }
    p
}

// Whether p times q is surely within the limit: at most 2^46 times 2^16, which eight radices of 4 make, or 2^30 times 2^32, which
// is more than any four make.
fn surely_within(p: u64, q: u64) -> bool
    ensures { result ≡ true → p * q ≤ 2 ^ 62 }
{
    if q <= 0x1_0000 {
        return p <= 0x4000_0000_0000;
    }
    (p <= 0x4000_0000) & (q <= 0x1_0000_0000)
}

// The division, which is slow, is left to large numbers.
fn times(p: u64, q: u64) -> Option<u64>
    ensures { result ≡ product_as (p * q) }
{
    if surely_within(p, q) {
        return Some(p * q);
    }
    if q == 0 {
        return Some(0);
    }
    if LIMIT / q < p {
        return None;
    }
    Some(p * q)
}

// Eight radices a turn, with one test for all eight; what is left over by eights comes first. A radix that is 0 makes the
// product 0, unless it is over before.
fn product_of(radices: &[u8]) -> Option<u64>
    ensures { Multiplied radices.now result }
{
    let n = radices.len();
    let few = n % 8;
    let mut p = product_of_few(&radices[..few]);
    for i in (few..n).step_by(8) {
        p = times(p, product_of_few(&radices[i..i + 8]))?;
    }
    Some(p)
}

// N, the product of the radices (a survey's notch counts), once they have passed refusals 2, 3 and 4.
pub fn size(radices: &[u8]) -> Result<u64, Refusal>
    ensures { answer_as result ≡ size_call radices.now }
{
    let n = radices.len();
    if (n == 0) | (DIGITS < n) {
        return Err(Refusal::Digits);
    }
    let whole = product_of(radices);
    let Some(total) = whole else {
        if none_zero(radices) {
            return Err(Refusal::Size);
        }
        return Err(Refusal::Radix);
    };
    if total == 0 {
        return Err(Refusal::Radix);
    }
    Ok(total)
}

// N again, once a survey and the capacity of its work-ahead buffer have passed refusals 2 to 5. (A stage's answer is taken apart
// by `let .. else`, here, below and in the crates above: document 01 names that form.)
pub fn survey_size(radices: &[u8], capacity: usize) -> Result<u64, Refusal>
    ensures { answer_as result ≡ survey_call radices.now capacity }
{
    let counted = size(radices);
    let Ok(total) = counted else {
        return counted;
    };
    if (capacity == 0) | (CAPACITY < capacity) {
        return Err(Refusal::Capacity);
    }
    Ok(total)
}

// Document 01's b: a digit as it is after a rank that is even, from the other end after one that is odd.
fn reflect(m: u64, p: u64, a: u64) -> u64
    requires { a < m }
    ensures { result ≡ reflected m p a }
{
    if p % 2 == 0 { a } else { m - 1 - a }
}

fn digit_at(radices: &[u8], word: &[u8], i: usize) -> Option<(u64, u64)>
    requires { (i < length radices.now) × (i < length word.now) }
    ensures { (result ≡ digit_as (get_or radices.now i 0) (get_or word.now i 0)) × (get_or radices.now i 0 < 256) }
{
    let radix = u64::from(radices[i]);
    let digit = u64::from(word[i]);
    if radix <= digit {
        return None;
    }
    Some((radix, digit))
}

// Two digits as one: its radix is the product of theirs, and it is their rank among themselves.
fn pair_at(radices: &[u8], word: &[u8], i: usize) -> Option<(u64, u64)>
    requires { (i + 1 < length radices.now) × (i + 1 < length word.now) }
    ensures { result ≡ pair_as radices.now word.now i }
{
    let (m, a) = digit_at(radices, word, i)?;
    let (l, b) = digit_at(radices, word, i + 1)?;
    Some((m * l, a * l + reflect(l, a, b)))
}

// One pass over the word: each digit is read once, tested and ranked at once. They are taken two a turn, as one, so that the
// rank so far waits for one multiplication and not for two; if they are odd in number, the slowest comes first, alone. (It
// answers no `Result`: the compiler would note in each turn that this may be a refusal, which costs a sixth of the time.)
fn place_of(radices: &[u8], word: &[u8]) -> Option<u64>
    requires { Rankable radices.now word.now }
    ensures { result ≡ place_as radices.now word.now }
{
    let n = radices.len();
    let mut p: u64 = 0;
    let mut i = n % 2;
    if i == 1 {
        let (_, a) = digit_at(radices, word, 0)?;
        p = a;
    }
    // By hand for speed: over `(n % 2..n).step_by(2)` the aim of docs/BENCHMARKS.md for `rank` is missed, by 1.1 times the time.
    while i < n {
        let (m, a) = pair_at(radices, word, i)?;
        p = p * m + reflect(m, p, a);
        i += 2;
    }
    Some(p)
}

// The rank of a word (a setting).
pub fn rank(radices: &[u8], word: &[u8]) -> Result<u64, Refusal>
    ensures { answer_as result ≡ rank_call radices.now word.now }
{
    let counted = size(radices);
    let Ok(_) = counted else {
        return counted;
    };
    if word.len() != radices.len() {
        return Err(Refusal::Word);
    }
    place_of(radices, word).ok_or(Refusal::Word)
}

// The digits from the fastest on: each is a remainder, and the quotient is the rank of the slower ones.
fn put_word(radices: &[u8], rank: u64, out: &mut [u8])
    requires { Room radices.now out.old }
    ensures { out.new ≡ put_word radices.now rank out.old }
{
    let mut q = rank;
    for i in (0..radices.len()).rev() {
        let m = u64::from(radices[i]);
        let b = q % m;
        q = q / m;
        out[i] = reflect(m, q, b) as u8;
    }
}

// The word of a rank, at the start of `out`.
pub fn word(radices: &[u8], rank: u64, out: &mut [u8]) -> Result<usize, Refusal>
    ensures { Wrote (word_call radices.now rank) (answer_as result) out.old out.new }
{
    let counted = size(radices);
    let Ok(total) = counted else {
        return Err(counted.unwrap_err());
    };
    if total <= rank {
        return Err(Refusal::Word);
    }
    if out.len() < radices.len() {
        return Err(Refusal::Output);
    }
    put_word(radices, rank, out);
    Ok(radices.len())
}
