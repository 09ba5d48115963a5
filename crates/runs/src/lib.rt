// The moves of a fresh walk as bytes in a lent output, by either engine, or of one that is picked up: an opening and one run.

#![tactic(auto)]

ghost use Rattle.std.specs.Prelude.{◌≡◌};
ghost use Rattle.ahead_theory.specs.Calls.{run_of};
ghost use Rattle.ahead.specs.Structs.{walk_as};
ghost use Rattle.runs_theory.specs.MoveCalls.{walk_moves_call, resumed_moves_call, disk_moves_call};
ghost use Rattle.runs.specs.Enums.{moves_as};
ghost use Rattle.runs.specs.Stages.{moves_of};

use ahead::Walk;
use gray::{Refusal, Running};
use towers::Towers;

// At most t moves of a walk, whose state is not handed on. One function for both openings, so that the compiler puts the run
// into it; where it took the opening's answer too, numbers of the run's loop were kept in memory, and a move took a tenth
// longer.
fn run_moves(walk: Walk, t: u64, out: &mut [u8]) -> Result<Running, Refusal>
    ensures { moves_as result out.new ≡ moves_of (run_of (walk_as walk) t out.old) }
{
    let (_, answer) = walk.run(t, out);
    answer
}

// At most t moves of a fresh walk by the buffered engine. (By `let .. else`, here and below: document 01 names that form for a
// stage of refusals.)
#[tactic(auto, unfolding(runs_theory::specs::MoveCalls::walk_moves_call))]
pub fn walk_moves(
    radices: &[u8],
    capacity: usize,
    t: u64,
    out: &mut [u8],
) -> Result<Running, Refusal>
    ensures { moves_as result out.new ≡ walk_moves_call radices.now capacity t out.old }
{
    let closed = Walk::closed();
    let (fresh, opened) = closed.open(radices, capacity);
    let Ok(()) = opened else {
        return Err(opened.unwrap_err());
    };
    run_moves(fresh, t, out)
}

// The same of a walk that is picked up at a word (a setting).
#[tactic(auto, unfolding(runs_theory::specs::MoveCalls::resumed_moves_call))]
pub fn resumed_moves(
    radices: &[u8],
    capacity: usize,
    word: &[u8],
    t: u64,
    out: &mut [u8],
) -> Result<Running, Refusal>
    ensures { moves_as result out.new
        ≡ resumed_moves_call radices.now capacity word.now t out.old }
{
    let closed = Walk::closed();
    let (picked_up, resumed) = closed.resume(radices, capacity, word);
    let Ok(()) = resumed else {
        return Err(resumed.unwrap_err());
    };
    run_moves(picked_up, t, out)
}

// At most t moves of a fresh game by the disk engine.
#[tactic(auto, unfolding(runs_theory::specs::MoveCalls::disk_moves_call))]
pub fn disk_moves(radices: &[u8], t: u64, out: &mut [u8]) -> Result<Running, Refusal>
    ensures { moves_as result out.new ≡ disk_moves_call radices.now t out.old }
{
    let closed = Towers::closed();
    let (fresh, opened) = closed.open(radices);
    let Ok(()) = opened else {
        return Err(opened.unwrap_err());
    };
    let (_, answer) = fresh.run(t, out);
    answer
}
