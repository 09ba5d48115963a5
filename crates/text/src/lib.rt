// The lines that the program `walk` writes.

#![tactic(auto)]

ghost use Rattle.std.specs.Prelude.{◌≡◌, cond, [], ◌∷◌, ◌++◌, ◌+◌, ◌≤◌, length, take};
ghost use Rattle.gray_theory.specs.Answers.{Wrote};
ghost use Rattle.gray.specs.Enums.{answer_as};
ghost use Rattle.text_theory.specs.Ascii.{ascii};
ghost use Rattle.text_theory.specs.Decimals.{decimal};
ghost use Rattle.text_theory.specs.Lines.{setting_text, direction_text, line_text, survey_line, line_call};
ghost use Rattle.text.specs.Stages.{Put};

use gray::{DIGITS, Refusal};
use text_theory::Line;

// The most settings that are walked.
const MOST: u64 = 4096;

// A line as it is made, one piece behind the other: the first `len` bytes. No String, since its memory is fixed; and no Display,
// since the clauses of `write!` don't rule out an error, as `write_line` must.
#[derive(Clone, Copy)]
struct Text {
    bytes: [u8; 256],
    len: usize,
}

impl Text {
    fn empty() -> Text
        ensures { result.len ≡ 0 }
    {
        Text {
            bytes: [0; 256],
            len: 0,
        }
    }

    fn push(&mut self, byte: u8)
        requires { self.old.len + 1 ≤ 256 }
        ensures { Put (byte ∷ []) self.old self.new }
    {
        self.bytes[self.len] = byte;
        self.len += 1;
    }

    fn put(&mut self, bytes: &[u8])
        requires { self.old.len + length bytes.now ≤ 256 }
        ensures { Put bytes.now self.old self.new }
    {
        let end = self.len + bytes.len();
        self.bytes[self.len..end].copy_from_slice(bytes);
        self.len = end;
    }

    fn end_line(&mut self)
        requires { self.old.len + 1 ≤ 256 }
        ensures { Put (ascii "\n") self.old self.new }
    {
        self.push(b'\n');
    }

    // A number without leading zeros: the digits of its tenth part, if there are any, and then the last one.
    fn put_decimal(&mut self, n: u64)
        requires { self.old.len + length (decimal n) ≤ 256 }
        ensures { Put (decimal n) self.old self.new }
    {
        if n < 10 {
            self.push(b'0' + n as u8);
            return;
        }
        self.put_decimal(n / 10);
        self.push(b'0' + (n % 10) as u8);
    }

    // A number of up to 64 bits has at most 20 digits.
    fn put_number(&mut self, n: u64)
        requires { self.old.len + 20 ≤ 256 }
        ensures put { Put (decimal n) self.old self.new }
        ensures upper_bound { self.new.len ≤ self.old.len + 20 }
    {
        self.put_decimal(n);
    }

    // One notch of a setting, with a point before it unless it is the first.
    fn put_notch(&mut self, notch: u8, first: bool)
        requires { self.old.len + 4 ≤ 256 }
        ensures put { Put (cond first [] (ascii ".") ++ decimal notch) self.old self.new }
        ensures upper_bound { self.new.len ≤ self.old.len + 4 }
    {
        if !first {
            self.put(b".");
        }
        self.put_decimal(u64::from(notch));
    }

    // A setting: the last of its notches first, joined by points.
    fn put_setting(&mut self, setting: &[u8])
        requires { (length setting.now ≤ 48) × (self.old.len + 192 ≤ 256) }
        ensures put { Put (setting_text setting.now) self.old self.new }
        ensures upper_bound { self.new.len ≤ self.old.len + 192 }
    {
        let n = setting.len();
        for i in (0..n).rev() {
            self.put_notch(setting[i], i + 1 == n);
        }
    }

    fn put_direction(&mut self, down: bool)
        requires { self.old.len + 4 ≤ 256 }
        ensures put { Put (direction_text down) self.old self.new }
        ensures upper_bound { self.new.len ≤ self.old.len + 4 }
    {
        if down {
            self.put(b"down");
        } else {
            self.put(b"up");
        }
    }

    // A word and a number behind it.
    #[tactic(auto, using(crate::proofs::Putting::and_then))]
    fn put_counted(&mut self, word: &[u8], n: u64)
        requires { self.old.len + length word.now + 20 ≤ 256 }
        ensures put { Put (word.now ++ decimal n) self.old self.new }
        ensures upper_bound { self.new.len ≤ self.old.len + length word.now + 20 }
    {
        self.put(word);
        self.put_number(n);
    }

    // A word and a number, as a line.
    #[tactic(auto, using(crate::proofs::Putting::and_then))]
    fn put_named(&mut self, name: &[u8], n: u64)
        requires { (length name.now ≤ 8) × (self.old.len + 30 ≤ 256) }
        ensures put { Put (name.now ++ decimal n ++ ascii "\n") self.old self.new }
        ensures upper_bound { self.new.len ≤ self.old.len + 30 }
    {
        self.put_counted(name, n);
        self.end_line();
    }

    fn put_sizes(&mut self, n: u64, size: u64)
        requires { self.old.len + 60 ≤ 256 }
        ensures put { Put (line_text (Line.Sizes n size) []) self.old self.new }
        ensures upper_bound { self.new.len ≤ self.old.len + 60 }
    {
        self.put_counted(b"sluices ", n);
        self.put_counted(b" settings ", size);
        self.end_line();
    }

    // A rank and its setting, with which each line of the walk begins.
    #[tactic(auto, using(crate::proofs::Putting::and_then))]
    fn put_ranked(&mut self, rank: u64, setting: &[u8])
        requires { (length setting.now ≤ 48) × (self.old.len + 213 ≤ 256) }
        ensures put { Put (decimal rank ++ ascii " " ++ setting_text setting.now) self.old self.new }
        ensures upper_bound { self.new.len ≤ self.old.len + 213 }
    {
        self.put_number(rank);
        self.put(b" ");
        self.put_setting(setting);
    }

    fn put_start(&mut self, setting: &[u8])
        requires { (length setting.now ≤ 48) × (self.old.len + 220 ≤ 256) }
        ensures put { Put (line_text Line.Start setting.now) self.old self.new }
        ensures upper_bound { self.new.len ≤ self.old.len + 220 }
    {
        self.put_ranked(0, setting);
        self.put(b" start\n");
    }

    // The move that a line names.
    fn put_move(&mut self, digit: u8, down: bool)
        requires { self.old.len + 30 ≤ 256 }
        ensures put { Put (ascii " " ++ decimal digit ++ ascii " " ++ direction_text down ++ ascii "\n") self.old self.new }
        ensures upper_bound { self.new.len ≤ self.old.len + 30 }
    {
        self.put_counted(b" ", u64::from(digit));
        self.put(b" ");
        self.put_direction(down);
        self.end_line();
    }

    fn put_moved(&mut self, rank: u64, digit: u8, down: bool, setting: &[u8])
        requires { (length setting.now ≤ 48) × (self.old.len + 243 ≤ 256) }
        ensures put { Put (line_text (Line.Moved rank digit down) setting.now) self.old self.new }
        ensures upper_bound { self.new.len ≤ self.old.len + 243 }
    {
        self.put_ranked(rank, setting);
        self.put_move(digit, down);
    }

    fn put_line(&mut self, line: Line, setting: &[u8])
        requires { (length setting.now ≤ 48) × (self.old.len + 243 ≤ 256) }
        ensures put { Put (line_text line setting.now) self.old self.new }
        ensures upper_bound { self.new.len ≤ self.old.len + 243 }
    {
        match line {
            Line::Unread => self.put(b"unread\n"),
            Line::Refused(k) => self.put_named(b"refused ", u64::from(k)),
            Line::Long => self.put(b"long\n"),
            Line::Sizes(n, size) => self.put_sizes(n, size),
            Line::Start => self.put_start(setting),
            Line::Moved(rank, digit, down) => self.put_moved(rank, digit, down, setting),
            Line::End(last) => self.put_named(b"end ", last),
        }
    }
}

// The first line for a line of counts.
pub fn survey_line(radices: &[u8]) -> Line
    ensures { result ≡ survey_line radices.now }
{
    let counted = gray::size(radices);
    let Ok(total) = counted else {
        return Line::Refused(gray::number(counted));
    };
    if MOST < total {
        return Line::Long;
    }
    Line::Sizes(radices.len() as u64, total)
}

// A line, at the start of `out`. The word has digit 1 first, as an engine's state has it; of its digits the first n are shown.
pub fn write_line(line: Line, word: [u8; DIGITS], n: u8, out: &mut [u8]) -> Result<usize, Refusal>
    ensures { Wrote (line_call line (take n word)) (answer_as result) out.old out.new }
{
    let mut text = Text::empty();
    text.put_line(line, &word[..usize::from(n).min(DIGITS)]);
    if out.len() < text.len {
        return Err(Refusal::Output);
    }
    out[..text.len].copy_from_slice(&text.bytes[..text.len]);
    Ok(text.len)
}
