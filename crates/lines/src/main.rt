// What `walk` answers first to lines good and bad: each line of the input in quotes, and then the first line of its answer. The
// last one has no newline. Each line is read in two parts.

#![tactic(auto)]

ghost use Rattle.std.specs.Prelude.{◌≤◌, length, IfOk};

use gray::{DIGITS, Refusal};
use reader::{Found, Reader};
use text_theory::Line;

// (By `io` and not `println!`: std's streams rest on more functions of C, and nothing more is to be assumed. A crate for the few
// lines that programs share would be no plainer.)
fn print(bytes: &[u8]) {
    io::write_all(1, bytes);
}

fn read_line(line: &[u8]) -> Reader {
    let (front, back) = line.split_at(line.len() / 2);
    Reader::fresh().read(front).read(back)
}

fn first_line(reader: Reader) -> Line {
    let Found::Counts(n) = reader.found() else {
        return Line::Unread;
    };
    text::survey_line(&reader.counts[..n])
}

// How many bytes of an output a line takes.
fn write(line: Line, out: &mut [u8]) -> Result<usize, Refusal>
    ensures { IfOk result (λ n. n ≤ length out.new) }
{
    text::write_line(line, [0; DIGITS], 0, out)
}

// A line needs just as many bytes as it has.
fn print_line(line: Line) {
    let mut out = [0; 256];
    let Ok(n) = write(line, &mut out) else {
        return;
    };
    print(&out[..n]);
    if write(line, &mut out[..n]) != Ok(n) {
        print(b"refused with its room\n");
    }
    if 0 < n {
        if write(line, &mut out[..n - 1]) != Err(Refusal::Output) {
            print(b"not refused with less\n");
        }
    }
}

// A line, and the same without its newline.
fn print_answer(line: &[u8]) {
    let shown = line.strip_suffix(b"\n");
    print(b"\"");
    print(shown.unwrap_or(line));
    if shown.is_some() {
        print(b"\" ");
    } else {
        print(b"\" and no newline: ");
    }
    print_line(first_line(read_line(line)));
}

fn run(text: &[u8]) {
    for line in text.split_inclusive(|byte| *byte == b'\n') {
        print_answer(line);
    }
}

fn main() {
    let mut text = [0u8; 16384];
    let got = io::read_full(0, &mut text);
    run(&text[..got]);
}
