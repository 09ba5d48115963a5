// The rank in two passes, as the static library exports it for programs outside.

#![tactic(auto)]

ghost use Rattle.std.specs.Prelude.{◌≡◌};
ghost use Rattle.gray_theory.specs.Calls.{rank_call};
ghost use Rattle.capi.specs.Encoding.{encoded};

// The rank of a word (a setting), in two passes.
#[unsafe(no_mangle)]
pub extern "C" fn gray_rank_in_two_passes(radices: &[u8], word: &[u8]) -> u64
    ensures { result ≡ encoded (rank_call radices.now word.now) }
{
    two_pass::gray_rank_in_two_passes(radices, word)
}
