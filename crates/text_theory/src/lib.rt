// No code: specs/ holds what the program `walk` reads and writes, as definitions on lists of bytes, and proofs/ the theorems on
// them; here stands the type of a line that it writes. The code is in `reader` and `text`.

#![tactic(auto)]

// The lines of `walk`. `Sizes` has n and N, `Moved` the rank, the digit (sluice) and whether it went down, `End` N − 1.
// `Refused` has the number that is printed and no enum of refusals: `survey_line`, of which theorems speak, is made of numbers.
#[derive(Clone, Copy, Debug, PartialEq, Eq)]
pub enum Line {
    Unread,
    Refused(u8),
    Long,
    Sizes(u64, u64),
    Start,
    Moved(u64, u8, bool),
    End(u64),
}
