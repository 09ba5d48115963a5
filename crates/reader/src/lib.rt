// What the program `walk` reads: decimal numbers, and the line of notch counts.

#![tactic(auto)]

ghost use Rattle.std.specs.Prelude.{◌≡◌, ◌≤◌, length};
ghost use Rattle.reader.specs.Parsing.{number_of};
ghost use Rattle.reader.specs.Readers.{fresh_reader, in_phase, byte_read, count_kept, field_read, line_read, more_read, read_in, read as read_of, found_in};
ghost use Rattle.reader.specs.Stages.{digit_at, count_of};

use gray::DIGITS;

// How far a line has been read: it goes on, it has ended, or it is no line of counts.
#[derive(Clone, Copy, Debug, PartialEq, Eq)]
pub enum Phase {
    More,
    Ended,
    Unread,
}

// How many counts a reader keeps at the most: so many are too many already.
const KEPT: usize = DIGITS + 1;

// The reader of the line of counts: the counts so far, and the bytes of the field that is being read.
// Arrays with `kept` and `digits` beside them, and no Vec: its memory is fixed.
#[derive(Clone, Copy, Debug, PartialEq, Eq)]
pub struct Reader {
    pub counts: [u8; KEPT],
    pub kept: u8,
    pub field: [u8; 3],
    pub digits: u8,
    pub phase: Phase,
}

// What a reader has found: that the line goes on, how many counts are kept once it has ended, or that it is no line of counts.
// A case more than an Option has: a line that goes on is read further, one that is no line of counts isn't.
#[derive(Clone, Copy, Debug, PartialEq, Eq)]
pub enum Found {
    More,
    Counts(usize),
    Unread,
}

// The value of a decimal digit.
fn digit(byte: u8) -> Option<u64>
    ensures { result ≡ digit_at byte }
{
    match byte {
        b'0'..=b'9' => Some(u64::from(byte - b'0')),
        _ => None,
    }
}

// The number that decimal digits say, where there is one digit at least and 64 bits hold the value.
pub fn number(bytes: &[u8]) -> Option<u64>
    ensures { result ≡ number_of bytes.now }
{
    if bytes.is_empty() {
        return None;
    }
    let mut value: u64 = 0;
    for &byte in bytes {
        let d = digit(byte)?;
        value = value.checked_mul(10)?.checked_add(d)?;
    }
    Some(value)
}

// A field of at most three bytes as a notch count.
fn as_count(field: &[u8]) -> Option<u8>
    requires { length field.now ≤ 3 }
    ensures { result ≡ count_of field.now }
{
    let value = number(field)?;
    u8::try_from(value).ok()
}

impl Reader {
    pub fn fresh() -> Reader
        ensures { result ≡ fresh_reader }
    {
        Reader {
            counts: [0; KEPT],
            kept: 0,
            field: [0; 3],
            digits: 0,
            phase: Phase::More,
        }
    }

    fn in_phase(self, phase: Phase) -> Reader
        ensures { result ≡ in_phase phase self }
    {
        Reader { phase, ..self }
    }

    // A byte of a field.
    fn byte(mut self, byte: u8) -> Reader
        ensures { result ≡ byte_read self byte }
    {
        if 3 <= self.digits {
            return self.in_phase(Phase::Unread);
        }
        self.field[usize::from(self.digits)] = byte;
        self.digits += 1;
        self
    }

    // The end of a field, with the phase that comes then.
    fn end_field(self, next: Phase) -> Reader
        ensures { result ≡ field_read self next }
    {
        let k = usize::from(self.digits).min(3);
        match as_count(&self.field[..k]) {
            Some(value) => self.keep(value, next),
            None => self.in_phase(Phase::Unread),
        }
    }

    // One count more; those that come after the last that is kept are passed over.
    fn keep(mut self, value: u8, next: Phase) -> Reader
        ensures { result ≡ count_kept self value next }
    {
        let place = usize::from(self.kept);
        if place < KEPT {
            self.counts[place] = value;
            self.kept += 1;
        }
        Reader {
            digits: 0,
            phase: next,
            ..self
        }
    }

    fn end_line(self) -> Reader
        ensures { result ≡ line_read self }
    {
        if (self.digits == 0) & (self.kept == 0) {
            return self.in_phase(Phase::Ended);
        }
        self.end_field(Phase::Ended)
    }

    fn more(self, byte: u8) -> Reader
        ensures { result ≡ more_read self byte }
    {
        if byte == b'\n' {
            return self.end_line();
        }
        if byte == b' ' {
            return self.end_field(Phase::More);
        }
        self.byte(byte)
    }

    fn one(self, byte: u8) -> Reader
        ensures { result ≡ read_in self.phase self byte }
    {
        match self.phase {
            Phase::More => self.more(byte),
            Phase::Ended | Phase::Unread => self,
        }
    }

    // A part of the input. Once the line has ended or cannot be read, nothing changes.
    pub fn read(self, bytes: &[u8]) -> Reader
        ensures { result ≡ read_of self bytes.now }
    {
        let mut reader = self;
        for &byte in bytes {
            reader = reader.one(byte);
        }
        reader
    }

    pub fn found(self) -> Found
        ensures { result ≡ found_in self.phase self.kept }
    {
        match self.phase {
            Phase::More => Found::More,
            Phase::Unread => Found::Unread,
            Phase::Ended => Found::Counts(usize::from(self.kept).min(KEPT)),
        }
    }
}
