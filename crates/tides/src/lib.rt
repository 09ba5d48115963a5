// The harbour file (document 02): how many moves fit in each of its tide windows, and whether a move may begin at a minute.

#![tactic(auto)]

mod calls;
mod course;
mod line;

pub use calls::{counts, may_begin};
