// The parts of a line: words, and lists of numbers.
ghost use Rattle.std.specs.Prelude.{◌≤◌, length, IfSome};

const SEPARATORS: &[u8] = b" ,";

// A text up to the first of some bytes, and from it on.
pub(crate) fn split_before<'a>(text: &'a [u8], stops: &[u8]) -> (&'a [u8], &'a [u8]) {
    match text.iter().position(|byte| stops.contains(byte)) {
        Some(end) => text.split_at(end),
        None => (text, &[]),
    }
}

// A line's first word, which ends at a space, a comma or the end, and the rest of the line from there.
pub(crate) fn split_word(text: &[u8]) -> (&[u8], &[u8]) {
    split_before(text, SEPARATORS)
}

// A name is known by its last eight bytes, without the zero bytes that they begin with.
pub(crate) fn known(name: &[u8]) -> &[u8] {
    let last = &name[name.len().saturating_sub(8)..];
    match last.iter().position(|letter| *letter != 0) {
        Some(start) => &last[start..],
        None => &[],
    }
}

// The numbers of a text, with spaces and commas between them, where all can be read and there is room for them.
pub(crate) fn read_list<'a, T: TryFrom<u64> + Copy>(
    text: &[u8],
    room: &'a mut [T],
) -> Option<&'a [T]>
where
    T::Error: Drop,
{
    let mut count = 0;
    let words = text.split(|byte| SEPARATORS.contains(byte));
    for word in words.filter(|word| !word.is_empty()) {
        if room.len() <= count {
            return None;
        }
        room[count] = T::try_from(reader::number(word)?).ok()?;
        count += 1;
    }
    room.get(..count)
}

// The same numbers as bytes, where all of them are and there is room for them.
pub(crate) fn narrow<'a>(numbers: &[u64], room: &'a mut [u8]) -> Option<&'a [u8]>
    ensures { IfSome result (λ part. length part.now ≤ length room.old) }
{
    let bytes = room.get_mut(..numbers.len())?;
    for (byte, &number) in bytes.iter_mut().zip(numbers) {
        *byte = u8::try_from(number).ok()?;
    }
    Some(bytes)
}

// What a line gives a call: a list of bytes, and numbers after a comma.
#[derive(Clone, Copy)]
pub(crate) struct Given<'a> {
    pub(crate) list: &'a [u8],
    pub(crate) numbers: &'a [u64],
}

impl<'a> Given<'a> {
    pub(crate) fn read(
        text: &[u8],
        list: &'a mut [u8],
        numbers: &'a mut [u64],
    ) -> Option<Given<'a>> {
        let (first, rest) = split_before(text, b",");
        Some(Given {
            list: read_list(first, list)?,
            numbers: read_list(rest, numbers)?,
        })
    }

    // The index of the digit or the entry whose number the list begins with, if it has one; past any array for a number of 0.
    pub(crate) fn index(self) -> Option<usize> {
        let first = self.list.first()?;
        Some(usize::from(first.wrapping_sub(1)))
    }
}
