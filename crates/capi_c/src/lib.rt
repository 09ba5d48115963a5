// The calls for C and Rust, as the static library exports them: the calls of `capi` by the same names, each with its promise.
// outside/include/gray.h declares them.

#![tactic(auto)]

ghost use Rattle.std.specs.Prelude.{◌≡◌};
ghost use Rattle.gray_theory.specs.Calls.{size_call, rank_call, word_call};
ghost use Rattle.lister_theory.specs.Calls.{list_call};
ghost use Rattle.movelog_theory.specs.Calls.{write_call, read_call};
ghost use Rattle.runs_theory.specs.MoveCalls.{walk_moves_call, resumed_moves_call, disk_moves_call};
ghost use Rattle.tides_theory.specs.Calls.{counts_call, may_begin_call};
ghost use Rattle.capi.specs.Encoding.{encoded, as_number, Sent, Ran};

// N.
#[unsafe(no_mangle)]
pub extern "C" fn gray_size(radices: &[u8]) -> u64
    ensures { result ≡ encoded (size_call radices.now) }
{
    capi::gray_size(radices)
}

// The rank of a word (a setting).
#[unsafe(no_mangle)]
pub extern "C" fn gray_rank(radices: &[u8], word: &[u8]) -> u64
    ensures { result ≡ encoded (rank_call radices.now word.now) }
{
    capi::gray_rank(radices, word)
}

// The word of a rank; the bytes written.
#[unsafe(no_mangle)]
pub extern "C" fn gray_word(radices: &[u8], rank: u64, out: &mut [u8]) -> u64
    ensures { Sent (word_call radices.now rank) result out.old out.new }
{
    capi::gray_word(radices, rank, out)
}

// A run of words; the bytes written.
#[unsafe(no_mangle)]
pub extern "C" fn gray_list(radices: &[u8], from: u64, count: u64, out: &mut [u8]) -> u64
    ensures { Sent (list_call radices.now from count) result out.old out.new }
{
    capi::gray_list(radices, from, count, out)
}

// The log of the first moves; the bytes written.
#[unsafe(no_mangle)]
pub extern "C" fn gray_log_write(radices: &[u8], capacity: usize, moves: u64, out: &mut [u8]) -> u64
    ensures { Sent (write_call radices.now capacity moves) result out.old out.new }
{
    capi::gray_log_write(radices, capacity, moves, out)
}

// The number of moves of a log.
#[unsafe(no_mangle)]
pub extern "C" fn gray_log_read(log: &[u8]) -> u64
    ensures { result ≡ encoded (read_call log.now) }
{
    capi::gray_log_read(log)
}

// At most t moves of a fresh walk by the buffered engine: how the run went, and in `made` the moves whose bytes stand.
#[unsafe(no_mangle)]
pub extern "C" fn gray_moves(
    radices: &[u8],
    capacity: usize,
    t: u64,
    out: &mut [u8],
    made: &mut u64,
) -> u64
    ensures { Ran (walk_moves_call radices.now capacity t out.old) result out.new made.new }
{
    capi::gray_moves(radices, capacity, t, out, made)
}

// The same of a walk that is picked up at a word (a setting).
#[unsafe(no_mangle)]
pub extern "C" fn gray_resume_moves(
    radices: &[u8],
    capacity: usize,
    word: &[u8],
    t: u64,
    out: &mut [u8],
    made: &mut u64,
) -> u64
    ensures { Ran (resumed_moves_call radices.now capacity word.now t out.old)
        result out.new made.new }
{
    capi::gray_resume_moves(radices, capacity, word, t, out, made)
}

// The same of a fresh game by the disk engine.
#[unsafe(no_mangle)]
pub extern "C" fn gray_towers(radices: &[u8], t: u64, out: &mut [u8], made: &mut u64) -> u64
    ensures { Ran (disk_moves_call radices.now t out.old) result out.new made.new }
{
    capi::gray_towers(radices, t, out, made)
}

// How many moves fit in each tide window of a harbour file; the number of windows.
#[unsafe(no_mangle)]
pub extern "C" fn gray_tide_counts(file: &[u8], counts: &mut [u32]) -> u64
    ensures { Sent (counts_call file.now) result counts.old counts.new }
{
    capi::gray_tide_counts(file, counts)
}

// Whether a move may begin at a minute, counted from 2000-01-01 00:00: 1 or 0.
#[unsafe(no_mangle)]
pub extern "C" fn gray_tide_may_begin(file: &[u8], minute: u64) -> u64
    ensures { result ≡ encoded (as_number (may_begin_call file.now minute)) }
{
    capi::gray_tide_may_begin(file, minute)
}
