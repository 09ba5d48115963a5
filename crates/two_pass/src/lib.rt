// The rank in two passes, as it was: the first tests the word, the second ranks it. It is kept so that the one pass of `gray`
// can be held to it and timed beside it. It is no call of the library for C.

#![tactic(auto)]

ghost use Rattle.std.specs.Prelude.{◌≡◌, ◌<◌, length};
ghost use Rattle.gray_theory.specs.Radices.{digits};
ghost use Rattle.gray_theory.specs.Words.{reflect as reflected, is_word, rank as rank_of};
ghost use Rattle.gray_theory.specs.Calls.{rank_call};
ghost use Rattle.gray.specs.Enums.{answer_as};
ghost use Rattle.capi.specs.Encoding.{encoded};
ghost use Rattle.two_pass.specs.Stages.{checked_as, Rankable};

use gray::Refusal;

// Document 01's b: a digit as it is after a rank that is even, from the other end after one that is odd. (Private in `gray`; this
// crate is the rank as it was, whole, so it has its own.)
fn reflect(m: u64, p: u64, a: u64) -> u64
    requires { a < m }
    ensures { result ≡ reflected m p a }
{
    if p % 2 == 0 { a } else { m - 1 - a }
}

// The first pass, which has no way out in between, so that it can run on vectors.
fn all_below(radices: &[u8], word: &[u8]) -> bool
    requires { length word.now ≡ length radices.now }
    ensures { result ≡ is_word (digits radices.now) (digits word.now) }
{
    let mut ok = true;
    for i in 0..radices.len() {
        ok = (word[i] < radices[i]) & ok;
    }
    ok
}

// Refusal 8 of a word (a setting).
fn check_word(radices: &[u8], word: &[u8]) -> Result<(), Refusal>
    ensures { result ≡ checked_as (is_word (digits radices.now) (digits word.now)) }
{
    if word.len() != radices.len() {
        return Err(Refusal::Word);
    }
    if all_below(radices, word) {
        Ok(())
    } else {
        Err(Refusal::Word)
    }
}

// The second pass.
fn rank_from(radices: &[u8], word: &[u8]) -> u64
    requires { Rankable radices.now word.now }
    ensures { result ≡ rank_of (digits radices.now) (digits word.now) }
{
    let mut p: u64 = 0;
    for i in 0..radices.len() {
        let m = u64::from(radices[i]);
        let a = u64::from(word[i]);
        let b = reflect(m, p, a);
        p = p * m + b;
    }
    p
}

// The rank of a word: first it is tested, then ranked. (By `let .. else`: document 01 names that form for stages of refusals.)
pub fn rank(radices: &[u8], word: &[u8]) -> Result<u64, Refusal>
    ensures { answer_as result ≡ rank_call radices.now word.now }
{
    let counted = gray::size(radices);
    let Ok(_) = counted else {
        return counted;
    };
    let tested = check_word(radices, word);
    let Ok(()) = tested else {
        return Err(tested.unwrap_err());
    };
    Ok(rank_from(radices, word))
}

// The same for programs outside that compare it with `gray_rank`, in the same encoding. `two_pass_c` exports it.
pub fn gray_rank_in_two_passes(radices: &[u8], word: &[u8]) -> u64
    ensures { result ≡ encoded (rank_call radices.now word.now) }
{
    capi::encode(rank(radices, word))
}
