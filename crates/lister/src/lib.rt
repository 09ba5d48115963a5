// The writer of settings (document 01): an upward and a downward lister, each calling the other for the digits that remain.
// Radices and words are lent bytes with digit n first.

#![tactic(auto)]

ghost use Rattle.std.specs.Prelude.{◌≡◌, true, false, [], ◌∷◌, ◌++◌, ◌+◌, ◌-◌, ◌*◌, ◌^◌, ◌≤◌, ◌<◌, leb, length, take, drop, set};
ghost use Rattle.gray_theory.specs.Answers.{Wrote};
ghost use Rattle.gray.specs.Enums.{answer_as};
ghost use Rattle.gray_theory.specs.Radices.{size as size_of, all_from};
ghost use Rattle.gray_theory.specs.Places.{placed};
ghost use Rattle.lister_theory.specs.Listers.{listing};
ghost use Rattle.lister_theory.specs.Calls.{list_call};
ghost use Rattle.lister.specs.Outputs.{window, laid, notch_after, way_after, Past, Sized, Reached, RowRoom, Listed};

use gray::{DIGITS, Refusal, size};

// C bytes of a word, from byte `start` on, to the same bytes of the word at place `at`. They go by way of a local array: nothing
// else refers to it, so they can all be moved at once.
fn copy<const C: usize>(word: &[u8; DIGITS], start: usize, out: &mut [u8], at: usize)
    requires { (start + C ≤ 48) × (at + start + C ≤ length out.old) }
    ensures { out.new ≡ placed (at + start) (take C (drop start word.now)) out.old }
{
    let mut chunk = [0u8; C];
    chunk.copy_from_slice(&word[start..start + C]);
    let place = at + start;
    out[place..place + C].copy_from_slice(&chunk);
}

// The first k bytes of a word: C of them from the start and C up to the end, which may be the same in part.
fn copy_ends<const C: usize>(word: &[u8; DIGITS], k: usize, out: &mut [u8], at: usize)
    requires { (C ≤ k) × (k ≤ 2 * C) × (k ≤ 48) × (at + k ≤ length out.old) }
    ensures { out.new ≡ placed at (take k word.now) out.old }
{
    copy::<C>(word, 0, out, at);
    copy::<C>(word, k - C, out, at);
}

// By copies of a constant length: one of k bytes would be a loop over bytes or a call.
fn put(word: &[u8; DIGITS], k: usize, out: &mut [u8], at: usize)
    requires { (k ≤ 48) × (at + k ≤ length out.old) }
    ensures { out.new ≡ placed at (take k word.now) out.old }
{
    if 32 <= k {
        copy_ends::<32>(word, k, out, at);
    } else if 16 <= k {
        copy_ends::<16>(word, k, out, at);
    } else if 8 <= k {
        copy_ends::<8>(word, k, out, at);
    } else if 4 <= k {
        copy_ends::<4>(word, k, out, at);
    } else if 2 <= k {
        copy_ends::<2>(word, k, out, at);
    } else if 1 <= k {
        copy::<1>(word, 0, out, at);
    }
}

// The notch that a lister comes to after u others.
fn notch(m: usize, down: bool, u: usize) -> u8
    requires { (u < m) × (m < 256) }
    ensures { result ≡ notch_after down m u }
{
    (if down { m - 1 - u } else { u }) as u8
}

// The lister of the digits after one at notch a: the same after an even notch, the other after an odd one.
fn turn(a: u8, down: bool) -> bool
    ensures { result ≡ way_after down a }
{
    if a % 2 == 0 { down } else { !down }
}

// A word of n digits: those of `word` but for the last three, which are a, b and c.
fn put_word(word: &[u8; DIGITS], n: usize, a: u8, b: u8, c: u8, out: &mut [u8], at: usize)
    requires { (3 ≤ n) × (n ≤ 48) × (at + n ≤ length out.old) }
    ensures { out.new ≡ placed at (take (n - 3) word.now ++ (a ∷ b ∷ c ∷ [])) out.old }
{
    let k = n - 3;
    put(word, k, out, at);
    let place = at + k;
    out[place] = a;
    out[place + 1] = b;
    out[place + 2] = c;
}

// What a lister has still to do: `skip` words to pass over, then `left` to write, the first of them at place `at`.
#[derive(Clone, Copy)]
struct Window {
    skip: usize,
    left: usize,
    at: usize,
}

impl Window {
    // After a block of q words of n bytes each. One that comes before the window costs a subtraction and nothing else.
    fn past(self, q: usize, n: usize) -> Window
        requires { self.at + self.left * n < 2 ^ 64 }
        ensures { Past n q self.skip self.left self.at result.skip result.left result.at }
    {
        if q <= self.skip {
            return Window {
                skip: self.skip - q,
                ..self
            };
        }
        let words = (q - self.skip).min(self.left);
        Window {
            skip: 0,
            left: self.left - words,
            at: self.at + words * n,
        }
    }
}

// The words in which only the last digit moves; a and b are the two before it.
fn row(word: &[u8; DIGITS], n: usize, a: u8, b: u8, m: usize, down: bool, w: Window, out: &mut [u8])
    requires { RowRoom word.now n m w.skip w.left out.old w.at }
    ensures { out.new ≡ laid w.at (take (n - 3) word.now ++ (a ∷ b ∷ [])) (window w.skip w.left (listing down (m ∷ []))) out.old }
{
    let end = m.min(w.skip + w.left);
    let mut at = w.at;
    for u in w.skip..end {
        put_word(word, n, a, b, notch(m, down, u), out, at);
        at += n;
    }
}

// The words in which only the last two digits move; a is the one before them. None of the three is stored in `word`: to load
// bytes just after one of them was stored takes long.
fn square(
    radices: &[u8],
    sizes: &[usize; DIGITS],
    word: &[u8; DIGITS],
    a: u8,
    down: bool,
    mut w: Window,
    out: &mut [u8],
)
    requires { (3 ≤ length radices.now) × Reached radices.now sizes.now (set word.now (length radices.now - 3) a) (length radices.now - 2) w.skip w.left out.old w.at }
    ensures { out.new ≡ laid w.at (take (length radices.now - 3) word.now ++ (a ∷ [])) (window w.skip w.left (listing down (drop (length radices.now - 2) radices.now))) out.old }
{
    let n = radices.len();
    let i = n - 2;
    let m = usize::from(radices[i]);
    let last = usize::from(radices[i + 1]);
    let q = sizes[i];
    for u in 0..m {
        if w.left == 0 {
            break;
        }
        if w.skip < q {
            let b = notch(m, down, u);
            let downward = turn(b, down);
            row(word, n, a, b, last, downward, w, out);
        }
        w = w.past(q, n);
    }
}

// The upward lister: i digits stand fixed in `word`, and the next one goes through its notches, 0 first. After an even notch
// the digits that remain are listed upward too, after an odd one downward.
// (Radices and sizes are two parameters, here and in all the listers' parts: of a struct of references each clause would have to
// say at which moment it means it.)
#[cycle(listers)]
fn up(
    radices: &[u8],
    sizes: &[usize; DIGITS],
    word: &mut [u8; DIGITS],
    i: usize,
    mut w: Window,
    out: &mut [u8],
)
    requires { (i < length radices.now) × Reached radices.now sizes.now word.old i w.skip w.left out.old w.at }
    ensures { Listed false (drop i radices.now) i (take i word.old) word.old word.new
        w.skip w.left w.at out.old out.new }
{
    for a in 0..radices[i] {
        if w.left == 0 {
            break;
        }
        w = block(radices, sizes, word, i, a, false, w, out);
    }
}

// The downward lister: the next digit goes from its last notch to 0. After an even notch the digits that remain are listed
// downward too, after an odd one upward.
#[cycle(listers)]
fn down(
    radices: &[u8],
    sizes: &[usize; DIGITS],
    word: &mut [u8; DIGITS],
    i: usize,
    mut w: Window,
    out: &mut [u8],
)
    requires { (i < length radices.now) × Reached radices.now sizes.now word.old i w.skip w.left out.old w.at }
    ensures { Listed true (drop i radices.now) i (take i word.old) word.old word.new
        w.skip w.left w.at out.old out.new }
{
    for a in (0..radices[i]).rev() {
        if w.left == 0 {
            break;
        }
        w = block(radices, sizes, word, i, a, true, w, out);
    }
}

// The words in which digit i stands at notch a, as far as the window has them; the window after them. For the last two digits
// it calls `square` itself, and it is part of both listers: a call in between would be felt there.
#[cycle(listers)]
#[inline(always)]
fn block(
    radices: &[u8],
    sizes: &[usize; DIGITS],
    word: &mut [u8; DIGITS],
    i: usize,
    a: u8,
    down: bool,
    w: Window,
    out: &mut [u8],
) -> Window
    requires { (i < length radices.now) × Reached radices.now sizes.now word.old i w.skip w.left out.old w.at }
    ensures past { Past (length radices.now) (size_of (drop (i + 1) radices.now))
        w.skip w.left w.at result.skip result.left result.at }
    ensures listed { Listed (way_after down a) (drop (i + 1) radices.now) i (take i word.old ++ (a ∷ []))
        word.old word.new w.skip w.left w.at out.old out.new }
{
    let n = radices.len();
    let q = sizes[i];
    if w.skip < q {
        let downward = turn(a, down);
        if i + 3 == n {
            square(radices, sizes, word, a, downward, w, out);
        } else {
            remaining(radices, sizes, word, i, a, downward, w, out);
        }
    }
    w.past(q, n)
}

// Digit i stands at notch a, and the downward or the upward lister lists the digits that remain; where none remains the word is
// written as it stands.
#[cycle(listers)]
fn remaining(
    radices: &[u8],
    sizes: &[usize; DIGITS],
    word: &mut [u8; DIGITS],
    i: usize,
    a: u8,
    downward: bool,
    w: Window,
    out: &mut [u8],
)
    requires { (i < length radices.now)
        × Reached radices.now sizes.now (set word.old i a) (i + 1) w.skip w.left out.old w.at }
    ensures { Listed downward (drop (i + 1) radices.now) i (take i word.old ++ (a ∷ []))
        word.old word.new w.skip w.left w.at out.old out.new }
{
    word[i] = a;
    let next = i + 1;
    if next == radices.len() {
        put(word, next, out, w.at);
    } else if downward {
        down(radices, sizes, word, next, w, out);
    } else {
        up(radices, sizes, word, next, w, out);
    }
}

// For each digit the number of words of the digits after it.
fn block_sizes(radices: &[u8]) -> [usize; DIGITS]
    requires { (length radices.now ≤ 48) × (all_from 1 radices.now ≡ true) × (size_of radices.now ≤ 2 ^ 62) }
    ensures { (length result ≡ 48) × Sized radices.now result }
{
    let mut sizes = [1usize; DIGITS];
    let mut q = 1;
    for i in (0..radices.len()).rev() {
        sizes[i] = q;
        q *= usize::from(radices[i]);
    }
    sizes
}

// Whether a list of `total` words has `count` from rank `from` on. No sum is made that could be too large.
fn within(total: u64, from: u64, count: u64) -> bool
    ensures { result ≡ leb (from + count) total }
{
    from <= total && count <= total - from
}

// The settings of ranks `from` to `from + count - 1`, one after another, at the start of `out`. (By `let .. else`: document 01
// names that form for a stage of refusals.)
pub fn list(radices: &[u8], from: u64, count: u64, out: &mut [u8]) -> Result<usize, Refusal>
    ensures { Wrote (list_call radices.now from count) (answer_as result) out.old out.new }
{
    let counted = size(radices);
    let Ok(total) = counted else {
        return Err(counted.unwrap_err());
    };
    if !within(total, from, count) {
        return Err(Refusal::Word);
    }
    let n = radices.len();
    let room = (out.len() / n) as u64;
    if room < count {
        return Err(Refusal::Output);
    }
    if count == 0 {
        return Ok(0);
    }
    let sizes = block_sizes(radices);
    let mut word = [0u8; DIGITS];
    let first = from as usize;
    let words = count as usize;
    let window = Window {
        skip: first,
        left: words,
        at: 0,
    };
    up(radices, &sizes, &mut word, 0, window, out);
    Ok(words * n)
}
