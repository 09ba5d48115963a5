// Either engine, for callers that make the same calls of both: the buffered engine of `ahead` or the disk engine of `towers`.

#![tactic(auto)]

ghost use Rattle.std.specs.Prelude.{◌≡◌};
ghost use Rattle.ahead.specs.Structs.{walk_as};
ghost use Rattle.towers.specs.Structs.{towers_as};
ghost use Rattle.engines.specs.Engines.{buffered, disks, word_of, step_of, run_of};
ghost use Rattle.engines.specs.Structs.{engine_as, stepped_as, ran_as};

use ahead::Walk;
use gray::{DIGITS, Refusal, Running, Stepping};
use towers::Towers;

// The buffered engine, or the disk engine.
#[derive(Clone, Copy)]
pub enum Engine {
    Buffered(Walk),
    Disks(Towers),
}

impl Engine {
    // (No `From`: docs/CALLS.md names these two.)
    pub fn of_walk(walk: Walk) -> Engine
        ensures { engine_as result ≡ buffered (walk_as walk) }
    {
        Engine::Buffered(walk)
    }

    pub fn of_towers(towers: Towers) -> Engine
        ensures { engine_as result ≡ disks (towers_as towers) }
    {
        Engine::Disks(towers)
    }

    // The word (the setting), digit 1 first.
    pub fn setting(self) -> [u8; DIGITS]
        ensures { result ≡ word_of (engine_as self) }
    {
        match self {
            Self::Buffered(walk) => walk.word,
            Self::Disks(towers) => towers.word,
        }
    }

    // One call.
    pub fn step(self) -> (Engine, Result<Stepping, Refusal>)
        ensures { stepped_as result ≡ step_of (engine_as self) }
    {
        match self {
            Self::Buffered(walk) => {
                let (stepped, answer) = walk.step();
                (Engine::Buffered(stepped), answer)
            }
            Self::Disks(towers) => {
                let (stepped, answer) = towers.step();
                (Engine::Disks(stepped), answer)
            }
        }
    }

    // A run of at most t moves, their bytes at the start of `out`.
    pub fn run(self, t: u64, out: &mut [u8]) -> (Engine, Result<Running, Refusal>)
        ensures { ran_as result out.new ≡ run_of (engine_as self) t out.old }
    {
        match self {
            Self::Buffered(walk) => {
                let (ran, answer) = walk.run(t, out);
                (Engine::Buffered(ran), answer)
            }
            Self::Disks(towers) => {
                let (ran, answer) = towers.run(t, out);
                (Engine::Disks(ran), answer)
            }
        }
    }
}
