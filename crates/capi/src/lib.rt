// The calls for C and Rust: numbers and slices of numbers only, each result one number of 64 bits. Each function is thin: it calls
// the library and encodes the answer. `capi_c` exports them.

#![tactic(auto)]

ghost use Rattle.std.specs.Prelude.{◌≡◌};
ghost use Rattle.gray_theory.specs.Answers.{refused};
ghost use Rattle.gray_theory.specs.Calls.{size_call, rank_call, word_call};
ghost use Rattle.gray.specs.Enums.{refusal_number, answer_as, running_as};
ghost use Rattle.lister_theory.specs.Calls.{list_call};
ghost use Rattle.movelog_theory.specs.Calls.{write_call, read_call};
ghost use Rattle.runs_theory.specs.MoveCalls.{walk_moves_call, resumed_moves_call, disk_moves_call};
ghost use Rattle.tides_theory.specs.Calls.{counts_call, may_begin_call};
ghost use Rattle.capi.specs.Encoding.{encoded, as_number, Sent, run_code, moves_made, Ran};

use gray::{Refusal, Running};

// Minus a refusal's number, as C has it in 64 bits.
fn minus(refusal: Refusal) -> u64
    ensures { result ≡ encoded (refused (refusal_number refusal)) }
{
    u64::from(u8::from(refusal)).wrapping_neg()
}

// The encoding of every answer: the value, or minus the refusal's number. Public for `two_pass`, which answers in the same.
pub fn encode(answer: Result<u64, Refusal>) -> u64
    ensures { result ≡ encoded (answer_as answer) }
{
    answer.unwrap_or_else(minus)
}

// A length is a value too.
fn encode_length(answer: Result<usize, Refusal>) -> u64
    ensures { result ≡ encoded (answer_as answer) }
{
    encode(answer.map(|n| n as u64))
}

// How a run went.
fn code_of(run: Result<Running, Refusal>) -> u64
    ensures { result ≡ run_code (running_as run) }
{
    match run {
        Ok(Running::Made(_)) => 0,
        Ok(Running::Ended(_)) => 1,
        Ok(Running::Stopped(_, refusal)) => minus(refusal),
        Err(refusal) => minus(refusal),
    }
}

// The moves of a run whose bytes stand.
fn moves_of(run: Result<Running, Refusal>) -> u64
    ensures { result ≡ moves_made (running_as run) }
{
    match run {
        Ok(Running::Made(t)) => t,
        Ok(Running::Ended(k)) => k,
        Ok(Running::Stopped(k, _)) => k,
        Err(_) => 0,
    }
}

// What a run answers to C: how it went, and in `made` its moves.
fn tell(run: Result<Running, Refusal>, made: &mut u64) -> u64
    ensures { (result ≡ run_code (running_as run)) × (made.new ≡ moves_made (running_as run)) }
{
    *made = moves_of(run);
    code_of(run)
}

// N.
pub fn gray_size(radices: &[u8]) -> u64
    ensures { result ≡ encoded (size_call radices.now) }
{
    encode(gray::size(radices))
}

// The rank of a word (a setting).
pub fn gray_rank(radices: &[u8], word: &[u8]) -> u64
    ensures { result ≡ encoded (rank_call radices.now word.now) }
{
    encode(gray::rank(radices, word))
}

// The word of a rank; the bytes written.
pub fn gray_word(radices: &[u8], rank: u64, out: &mut [u8]) -> u64
    ensures { Sent (word_call radices.now rank) result out.old out.new }
{
    encode_length(gray::word(radices, rank, out))
}

// A run of words; the bytes written.
pub fn gray_list(radices: &[u8], from: u64, count: u64, out: &mut [u8]) -> u64
    ensures { Sent (list_call radices.now from count) result out.old out.new }
{
    encode_length(lister::list(radices, from, count, out))
}

// The log of the first moves; the bytes written.
pub fn gray_log_write(radices: &[u8], capacity: usize, moves: u64, out: &mut [u8]) -> u64
    ensures { Sent (write_call radices.now capacity moves) result out.old out.new }
{
    encode_length(movelog::write(radices, capacity, moves, out))
}

// The number of moves of a log.
pub fn gray_log_read(log: &[u8]) -> u64
    ensures { result ≡ encoded (read_call log.now) }
{
    encode(movelog::read(log))
}

// At most t moves of a fresh walk by the buffered engine: how the run went, and in `made` the moves whose bytes stand.
pub fn gray_moves(radices: &[u8], capacity: usize, t: u64, out: &mut [u8], made: &mut u64) -> u64
    ensures { Ran (walk_moves_call radices.now capacity t out.old) result out.new made.new }
{
    tell(runs::walk_moves(radices, capacity, t, out), made)
}

// The same of a walk that is picked up at a word (a setting).
pub fn gray_resume_moves(
    radices: &[u8],
    capacity: usize,
    word: &[u8],
    t: u64,
    out: &mut [u8],
    made: &mut u64,
) -> u64
    ensures { Ran (resumed_moves_call radices.now capacity word.now t out.old)
        result out.new made.new }
{
    tell(runs::resumed_moves(radices, capacity, word, t, out), made)
}

// The same of a fresh game by the disk engine.
pub fn gray_towers(radices: &[u8], t: u64, out: &mut [u8], made: &mut u64) -> u64
    ensures { Ran (disk_moves_call radices.now t out.old) result out.new made.new }
{
    tell(runs::disk_moves(radices, t, out), made)
}

// How many moves fit in each tide window of a harbour file; the number of windows.
pub fn gray_tide_counts(file: &[u8], counts: &mut [u32]) -> u64
    ensures { Sent (counts_call file.now) result counts.old counts.new }
{
    encode_length(tides::counts(file, counts))
}

// Whether a move may begin at a minute, counted from 2000-01-01 00:00: 1 or 0.
pub fn gray_tide_may_begin(file: &[u8], minute: u64) -> u64
    ensures { result ≡ encoded (as_number (may_begin_call file.now minute)) }
{
    encode(tides::may_begin(file, minute).map(u64::from))
}
