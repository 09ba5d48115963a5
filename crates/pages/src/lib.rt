// The pages that the program `walk` prints: whole lines, one after the other, each from the walk as it stands there.

#![tactic(auto)]

ghost use Rattle.std.specs.Prelude.{◌≡◌, take};
ghost use Rattle.gray_theory.specs.Answers.{Wrote};
ghost use Rattle.gray.specs.Enums.{stepping_as, answer_as};
ghost use Rattle.ahead.specs.Structs.{walk_as};
ghost use Rattle.text_theory.specs.Surveys.{unread};
ghost use Rattle.text_theory.specs.Lines.{line_call};
ghost use Rattle.reader.specs.Readers.{reader_input};
ghost use Rattle.pages_theory.specs.Pages.{half_of, printing_of, begun, is_last, call_line, called as calledOf, behind as behindOf, filling};
ghost use Rattle.pages.specs.Structs.{printing_as, filled_as};

use ahead::Walk;
use gray::{Refusal, Stepping};
use reader::{Found, Reader};
use text_theory::Line;

// What is still to be printed: the line that comes next, and the walk as it stands at that line.
#[derive(Clone, Copy)]
pub struct Printing {
    pub line: Line,
    pub walk: Walk,
}

// What is to be printed behind a page, how many bytes of the page are used, and whether it is the last one.
// (`rest` and `last` are no Option, since `filling` says what `rest` is on the last page too.)
#[derive(Clone, Copy)]
pub struct Filled {
    pub rest: Printing,
    pub used: usize,
    pub last: bool,
}

// Half of the digits that move, rounded up, and 1 where none does.
fn half(count: u8) -> usize
    ensures { result ≡ half_of count }
{
    if count == 0 {
        return 1;
    }
    usize::from(count).div_ceil(2)
}

// For what is no line of counts.
fn of_unread() -> Printing
    ensures { printing_as result ≡ begun unread }
{
    Printing {
        line: Line::Unread,
        walk: Walk::closed(),
    }
}

// The first line for a line of counts, and a walk with so many places that its queue is never empty.
fn of_survey(radices: &[u8]) -> Printing
    ensures { printing_as result ≡ printing_of radices.now }
{
    let moving = digit::moving(radices);
    let (walk, _) = Walk::closed().open(radices, half(moving.count));
    Printing {
        line: text::survey_line(radices),
        walk,
    }
}

// The line of a call, with the moves that are made then.
fn call_line(answer: Result<Stepping, Refusal>, moves: u64) -> Line
    ensures { result ≡ call_line (stepping_as answer) moves }
{
    match answer {
        Ok(Stepping::Moved(digit, down, _)) => Line::Moved(moves, digit, down),
        Ok(Stepping::End) => Line::End(moves),
        Err(refusal) => Line::Refused(u8::from(refusal)),
    }
}

fn called(walk: Walk) -> Printing
    ensures { printing_as result ≡ calledOf (walk_as walk) }
{
    let (next, answer) = walk.step();
    Printing {
        line: call_line(answer, next.moves),
        walk: next,
    }
}

impl Printing {
    // What is to be printed for what a reader has read.
    pub fn of_reader(reader: Reader) -> Printing
        ensures { printing_as result ≡ begun (reader_input reader) }
    {
        match reader.found() {
            Found::Counts(n) => of_survey(&reader.counts[..n]),
            Found::More | Found::Unread => of_unread(),
        }
    }

    // What comes behind the line: the start behind the first one, and then a call for each line.
    fn behind(self) -> Printing
        ensures { printing_as result ≡ behindOf self.line (walk_as self.walk) }
    {
        match self.line {
            Line::Sizes(..) => Printing {
                line: Line::Start,
                ..self
            },
            Line::Start | Line::Moved(..) => called(self.walk),
            Line::Unread | Line::Refused(_) | Line::Long | Line::End(_) => self,
        }
    }

    // The line, at the start of `out`.
    fn write(self, out: &mut [u8]) -> Result<usize, Refusal>
        ensures { Wrote (line_call self.line (take self.walk.n self.walk.word)) (answer_as result) out.old out.new }
    {
        text::write_line(self.line, self.walk.word, self.walk.n, out)
    }

    fn is_last(self) -> bool
        ensures { result ≡ is_last self.line }
    {
        matches!(
            self.line,
            Line::Unread | Line::Refused(_) | Line::Long | Line::End(_)
        )
    }

    // As many whole lines as the page holds, from its start on. (No index is counted: lines are of any length.)
    pub fn fill(self, page: &mut [u8]) -> Filled
        ensures { filled_as result page.new ≡ filling (printing_as self) page.old }
    {
        let mut printing = self;
        let mut used = 0;
        loop {
            let written = printing.write(&mut page[used..]);
            let Ok(k) = written else {
                return Filled {
                    rest: printing,
                    used,
                    last: false,
                };
            };
            used += k;
            if printing.is_last() {
                return Filled {
                    rest: printing,
                    used,
                    last: true,
                };
            }
            printing = printing.behind();
        }
    }
}
