// Holds both lists of document 004's figure 1 to the library: 1a of six two-notch digits, 1b of four three-notch digits. Input
// is the two lists as the paper prints them, a word to a line, digit n first; any other text prints `unread`. For each list
// come the numbers of words that agree with their rank, with the word of their rank and with the lister's. Then for each
// engine how many of its settings and moves agree, and whether it ends after the last word.

#![tactic(auto)]

ghost use Rattle.std.specs.Prelude.{◌≤◌, ◌<◌, length};

use ahead::Walk;
use engines::Engine;
use gray::{DIGITS, Refusal, Stepping};
use towers::Towers;

// How many words agreed with their rank, with the word of their rank and with the lister's.
#[derive(Clone, Copy)]
struct Tally {
    ranks: usize,
    words: usize,
    lists: usize,
}

// What agreed in a walk, and whether its last call answered the end: three findings, none of which says whether another is there.
#[derive(Clone, Copy)]
struct Walked {
    settings: u64,
    moves: u64,
    ended: bool,
}

// (By `io` and not `println!`: std's streams rest on more functions of C, and nothing more is to be assumed. A crate for the few
// lines that programs share would be no plainer.)
fn print(text: &[u8]) {
    io::write_all(1, text);
}

fn print_number(n: u64) {
    io::print_decimal(1, n);
}

fn print_line(name: &[u8], n: u64) {
    print(name);
    print_number(n);
    print(b"\n");
}

// Each byte with a space before it.
fn print_bytes(bytes: &[u8]) {
    for &byte in bytes {
        print(b" ");
        print_number(u64::from(byte));
    }
}

// The value of a decimal digit below a radix.
fn digit(byte: u8, radix: u8) -> Option<u8> {
    let d = byte.checked_sub(b'0')?;
    if d < radix { Some(d) } else { None }
}

// Takes the words from lines of n digits each, and gives how many; nothing unless they are such lines and just fill `words`.
fn read_words(lines: &[u8], n: usize, radix: u8, words: &mut [u8]) -> Option<u64>
    requires { (0 < n) × (n ≤ 48) }
{
    let total = lines.len() / (n + 1);
    if (lines.len() % (n + 1) != 0) | (words.len() / n != total) | (words.len() % n != 0) {
        return None;
    }
    for (line, word) in lines.chunks_exact(n + 1).zip(words.chunks_exact_mut(n)) {
        for (place, &byte) in word.iter_mut().zip(line) {
            *place = digit(byte, radix)?;
        }
        if line[n] != b'\n' {
            return None;
        }
    }
    Some(total as u64)
}

// Before the call the lent bytes are no digits of either list.
fn is_word_of(radices: &[u8], word: &[u8], rank: u64) -> bool {
    let mut out = [9u8; DIGITS];
    let written = gray::word(radices, rank, &mut out);
    (written == Ok(word.len())) & out.starts_with(word)
}

// The words one after another from rank 0. `whole` says whether the lister wrote them all. (That there is a radix stands at each
// caller too: a type for it would be no plainer.)
fn compare(radices: &[u8], words: &[u8], listed: &[u8], whole: bool) -> Tally
    requires { 0 < length radices.now }
{
    let n = radices.len();
    Tally {
        ranks: words
            .chunks_exact(n)
            .enumerate()
            .filter(|(rank, word)| gray::rank(radices, *word) == Ok(*rank as u64))
            .count(),
        words: words
            .chunks_exact(n)
            .enumerate()
            .filter(|(rank, word)| is_word_of(radices, *word, *rank as u64))
            .count(),
        lists: words
            .chunks_exact(n)
            .zip(listed.chunks_exact(n))
            .filter(|(word, other)| whole && *word == *other)
            .count(),
    }
}

// Here too the lent bytes are no digits before the call.
fn hold_words(radices: &[u8], words: &[u8], total: u64)
    requires { 0 < length radices.now }
{
    let mut listed = [9u8; 384];
    let written = lister::list(radices, 0, total, &mut listed);
    let agreed = compare(radices, words, &listed, written == Ok(words.len()));
    print_line(b"rank ", agreed.ranks as u64);
    print_line(b"word ", agreed.words as u64);
    print_line(b"list ", agreed.lists as u64);
}

// Whether a setting, with digit 1 first, is the word and zeros past its digits.
fn is_setting_of(setting: [u8; DIGITS], word: &[u8]) -> bool {
    setting == digit::reversed(word)
}

fn is_next(from: u8, to: u8, down: bool) -> bool {
    if down {
        to.checked_add(1) == Some(from)
    } else {
        from.checked_add(1) == Some(to)
    }
}

// Whether digit k goes one notch, down or up, from one word to that notch in the other, and every other digit stays.
fn leads(from: &[u8], to: &[u8], k: u8, down: bool, notch: u8) -> bool {
    if k == 0 || digit::MOST < k {
        return false;
    }
    let i = usize::from(k) - 1;
    let mut setting = digit::reversed(from);
    let new = digit::reversed(to);
    let goes = is_next(setting[i], new[i], down);
    setting[i] = new[i];
    (goes & (notch == new[i])) & is_setting_of(setting, to)
}

// Whether the answer is the move from a word to the next, where there is one.
fn is_move(answer: Result<Stepping, Refusal>, word: &[u8], next: Option<&[u8]>) -> bool {
    let Some(to) = next else {
        return false;
    };
    let Ok(Stepping::Moved(k, down, notch)) = answer else {
        return false;
    };
    leads(word, to, k, down, notch)
}

// Makes one call at each word: the setting before it should be that word, and its answer the move to the next word or, at the
// last word, the end.
fn walk(opened: Engine, n: usize, words: &[u8]) -> Walked
    requires { 0 < n }
{
    let mut engine = opened;
    let mut walked = Walked {
        settings: 0,
        moves: 0,
        ended: false,
    };
    let mut others = words.chunks_exact(n);
    others.next();
    for word in words.chunks_exact(n) {
        walked.settings += u64::from(is_setting_of(engine.setting(), word));
        let (next, answer) = engine.step();
        engine = next;
        walked.moves += u64::from(is_move(answer, word, others.next()));
        walked.ended = answer == Ok(Stepping::End);
    }
    walked
}

fn hold_engine(name: &[u8], opened: Result<(), Refusal>, engine: Engine, n: usize, words: &[u8])
    requires { 0 < n }
{
    print(name);
    if opened.is_err() {
        print(b"refused, ");
    }
    let walked = walk(engine, n, words);
    print(b"settings ");
    print_number(walked.settings);
    print(b", moves ");
    print_number(walked.moves);
    if walked.ended {
        print(b", end\n");
    } else {
        print(b", no end\n");
    }
}

// The buffer has half as many places as there are digits, rounded up.
fn hold_engines(radices: &[u8], words: &[u8])
    requires { 0 < length radices.now }
{
    let n = radices.len();
    let (buffered, opened) = Walk::closed().open(radices, n.div_ceil(2));
    hold_engine(
        b"buffered engine: ",
        opened,
        Engine::of_walk(buffered),
        n,
        words,
    );
    let (disks, opened) = Towers::closed().open(radices);
    hold_engine(b"disk engine: ", opened, Engine::of_towers(disks), n, words);
}

fn print_heading(figure: &[u8], radices: &[u8], total: u64) {
    print(figure);
    print(b", counts");
    print_bytes(radices);
    print(b": ");
    print_number(total);
    print(b" words read\n");
}

fn hold_list(figure: &[u8], radices: &[u8], words: &[u8], total: u64)
    requires { 0 < length radices.now }
{
    print_heading(figure, radices, total);
    hold_words(radices, words, total);
    hold_engines(radices, words);
}

// The text is 64 lines of six digits and 81 of four, 853 bytes; there is room for one more, so that a longer text is noticed.
fn main() {
    let mut text = [0u8; 854];
    let got = io::read_full(0, &mut text);
    let mut twos = [9u8; 384];
    let mut threes = [9u8; 324];
    let first = read_words(&text[0..448], 6, 2, &mut twos);
    let second = read_words(&text[448..853], 4, 3, &mut threes);
    match (first, second) {
        (Some(m), Some(k)) if got == 853 => {
            hold_list(b"figure 1a", b"\x02\x02\x02\x02\x02\x02", &twos, m);
            hold_list(b"figure 1b", b"\x03\x03\x03\x03", &threes, k);
        }
        _ => print(b"unread\n"),
    }
}
