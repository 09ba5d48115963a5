// Document 01's program: it reads one line of notch counts, sluice n first, and prints the walk through all settings, a line
// each. The moves are the buffered engine's. What a line of input says is proved in `reader`, what is printed for it in
// `pages`: here parts of the input are read, and pages written, one after the other.

#![tactic(auto)]

use pages::Printing;
use reader::{Found, Reader};
use std::io;
use std::io::{Read, Write};

// The input up to the newline, to a byte that makes it no line of counts, or to its end. One read takes what there is: a line that
// is typed is answered at its newline. Nothing says that an input ends, so the number of parts is bounded.
fn read_line(input: &mut impl Read) -> io::Result<Reader> {
    let mut reader = Reader::fresh();
    let mut bytes = [0; 4096];
    for _ in 0..u64::MAX {
        let n = input.read(&mut bytes)?;
        reader = reader.read(&bytes[..n]);
        if (n == 0) | (reader.found() != Found::More) {
            break;
        }
    }
    Ok(reader)
}

// Page after page, up to the last one: `written` of pages_theory. There are 4,098 at the most.
fn write_pages(out: &mut impl Write, begun: Printing, page: &mut [u8]) -> io::Result<()> {
    let mut printing = begun;
    for _ in 0..u64::MAX {
        let filled = printing.fill(page);
        out.write_all(&page[..filled.used])?;
        if filled.last {
            break;
        }
        printing = filled.rest;
    }
    Ok(())
}

fn main(rt: HostRuntime) -> io::Result<()> {
    let mut page = [0; 4096];
    let reader = read_line(&mut rt.reader())?;
    write_pages(&mut io::writer(&rt), Printing::of_reader(reader), &mut page)
}
