// One line of the harbour file.

ghost use Rattle.std.specs.Prelude.{◌≡◌, true, ◌+◌, ◌≤◌};
ghost use Rattle.std.specs.Result.{result_ok};
ghost use Rattle.tides_theory.specs.Lines.{is_line};
ghost use Rattle.tides.specs.Stages.{date_marks, time_marks, date_ones, time_ones, water_of, pair_of, fields_of, among as amongOf};
ghost use Rattle.tides.specs.Stages.{leap_day, length_of, lacking, date_ranged, time_ranged, start_in, time_in};
ghost use Rattle.tides.specs.Stages.{word_of, day_as, Right, has_numbers, first_known, tide_in, line_as};

// The bytes of a line, with its newline.
pub(crate) const LINE: usize = 19;

pub(crate) type Line = [u8; LINE];

// Two digits 0, as `pair` has them.
const ZEROS: u64 = 528;

// What a letter says.
#[derive(Clone, Copy, Debug, PartialEq, Eq)]
pub(crate) enum Water {
    High,
    Low,
}

// A date that has been read: the first eight of its bytes `2031-04-07,` and the last eight, each as a number, and the minute at
// which it begins.
#[derive(Clone, Copy)]
pub(crate) struct Day {
    head: u64,
    tail: u64,
    start: u64,
}

// What a line says: the minute of a tide, counted from 2000-01-01 00:00, its letter and its date.
#[derive(Clone, Copy)]
pub(crate) struct Tide {
    pub(crate) minute: u64,
    pub(crate) water: Water,
    pub(crate) day: Day,
}

// The numbers of a line, each with ZEROS added: the years after 2000, month, day, hour and minute.
#[derive(Clone, Copy)]
struct Fields {
    years: u64,
    month: u64,
    day: u64,
    hour: u64,
    minute: u64,
}

impl TryFrom<u8> for Water {
    type Error = ();

    ghost try_from_gives = { λ letter water. result_ok water ≡ water_of letter };

    fn try_from(letter: u8) -> Result<Water, ()> {
        match letter {
            b'H' => Ok(Water::High),
            b'L' => Ok(Water::Low),
            _ => Err(()),
        }
    }
}

// Whether the date of a line has its fixed bytes; the year's first two digits are among them. Tests one by one, with an early
// answer, take less time than gathered ones: they hold nearly always.
fn date_marked(line: &Line) -> bool
    ensures { result ≡ date_marks line.now }
{
    line[0] == b'2' && line[1] == b'0' && line[4] == b'-' && line[7] == b'-' && line[10] == b','
}

// Whether what stands behind it has them.
fn time_marked(line: &Line) -> bool
    ensures { result ≡ time_marks line.now }
{
    line[13] == b':' && line[16] == b',' && line[18] == b'\n'
}

// Whether the last byte of each number of the date is a digit. The first then is one too, if the number is in its range.
fn date_digits(line: &Line) -> bool
    ensures { result ≡ date_ones line.now }
{
    line[3].is_ascii_digit() && line[6].is_ascii_digit() && line[9].is_ascii_digit()
}

fn time_digits(line: &Line) -> bool
    ensures { result ≡ time_ones line.now }
{
    line[12].is_ascii_digit() && line[15].is_ascii_digit()
}

// The number that two digits say, with ZEROS added.
fn pair(a: u8, b: u8) -> u64
    ensures { result ≡ pair_of a b }
{
    u64::from(a) * 10 + u64::from(b)
}

// Whether a number lies in a range.
fn among(pair: u64, first: u64, last: u64) -> bool
    requires { (first ≤ 99) × (last ≤ 99) }
    ensures { result ≡ amongOf pair first last }
{
    (ZEROS + first <= pair) & (pair <= ZEROS + last)
}

// The day that a leap year has more.
fn leap_day(years: u64) -> u64
    ensures { result ≡ leap_day years }
{
    u64::from(years % 4 == 0)
}

// The days of a month: odd ones up to July and even ones from August on have 31.
fn month_length(years: u64, month: u64) -> u64
    requires { month ≤ 12 }
    ensures { result ≡ length_of years month }
{
    if month == 2 {
        return 28 + leap_day(years);
    }
    30 + (month + month / 8) % 2
}

// The days that February lacks to 30, in the months after it.
fn lacking_before(years: u64, month: u64) -> u64
    ensures { result ≡ lacking years month }
{
    if month <= 2 {
        return 0;
    }
    2 - leap_day(years)
}

impl Fields {
    fn of(line: &Line) -> Fields
        ensures { result ≡ fields_of line.now }
    {
        Fields {
            years: pair(line[2], line[3]),
            month: pair(line[5], line[6]),
            day: pair(line[8], line[9]),
            hour: pair(line[11], line[12]),
            minute: pair(line[14], line[15]),
        }
    }

    fn date_in_range(self) -> bool
        ensures { result ≡ date_ranged self }
    {
        among(self.years, 0, 99)
            && among(self.month, 1, 12)
            && among(
                self.day,
                1,
                month_length(self.years - ZEROS, self.month - ZEROS),
            )
    }

    fn time_in_range(self) -> bool
        ensures { result ≡ time_ranged self }
    {
        among(self.hour, 0, 23) && among(self.minute, 0, 59)
    }

    // The minute at which the date begins, counted from 2000-01-01 00:00. If February had 30 days, there would be
    // (367 m − 362) / 12 before month m.
    fn start(self) -> u64
        requires { date_ranged self ≡ true }
        ensures { result ≡ start_in self }
    {
        let years = self.years - ZEROS;
        let month = self.month - ZEROS;
        let before = years * 365 + (years + 3) / 4 + (month * 367 - 362) / 12
            - lacking_before(years, month);
        (before + (self.day - ZEROS) - 1) * 1440
    }

    // The minute of the day.
    fn time(self) -> u64
        requires { time_ranged self ≡ true }
        ensures { result ≡ time_in self }
    {
        (self.hour - ZEROS) * 60 + (self.minute - ZEROS)
    }
}

// Eight bytes as a number. The compiler makes one load of them.
fn word_at(line: &Line, at: usize) -> u64
    requires { at + 8 ≤ 19 }
    ensures { result ≡ word_of line.now at }
{
    u64::from_le_bytes([
        line[at],
        line[at + 1],
        line[at + 2],
        line[at + 3],
        line[at + 4],
        line[at + 5],
        line[at + 6],
        line[at + 7],
    ])
}

impl Day {
    // 2000-01-01: a date for the first line to be compared with.
    pub(crate) fn first() -> Day
        ensures { result ≡ first_known }
    {
        Day {
            head: u64::from_le_bytes(*b"2000-01-"),
            tail: u64::from_le_bytes(*b"0-01-01,"),
            start: 0,
        }
    }

    // Whether a line has this date. Here too, one test after the other takes less time.
    fn is_of(self, line: &Line) -> bool
        ensures { result ≡ has_numbers line.now self }
    {
        word_at(line, 0) == self.head && word_at(line, 3) == self.tail
    }

    fn read(line: &Line) -> Option<Day>
        ensures { result ≡ day_as line.now }
    {
        if !date_marked(line) || !date_digits(line) {
            return None;
        }
        let fields = Fields::of(line);
        if !fields.date_in_range() {
            return None;
        }
        Some(Day {
            head: word_at(line, 0),
            tail: word_at(line, 3),
            start: fields.start(),
        })
    }

    // The same, in less time where it is the known one.
    fn read_knowing(line: &Line, known: Day) -> Option<Day>
        requires { Right known }
        ensures { result ≡ day_as line.now }
    {
        if known.is_of(line) {
            return Some(known);
        }
        Day::read(line)
    }
}

// What a line says. The known date is that of the line before, which three of four lines have too.
pub(crate) fn read_line(line: &Line, known: Day) -> Option<Tide>
    requires { Right known }
    ensures { result ≡ line_as line.now }
{
    let day = Day::read_knowing(line, known)?;
    if !time_marked(line) || !time_digits(line) {
        return None;
    }
    let water = Water::try_from(line[17]).ok()?;
    let fields = Fields::of(line);
    if !fields.time_in_range() {
        return None;
    }
    Some(Tide {
        minute: day.start + fields.time(),
        water,
        day,
    })
}

// The minute of a line that has been read before.
pub(crate) fn minute_of(line: &Line) -> u64
    requires { is_line line.now ≡ true }
    ensures { result ≡ (tide_in line.now).at }
{
    let fields = Fields::of(line);
    fields.start() + fields.time()
}
