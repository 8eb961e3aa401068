// A line of a session as a step: a word and the numbers behind it, parted by one space, the numbers in their plain form (docs/SESSION.md).
use units::{Ordinal, Stamp};

// The text of Take is the message, with the line's own newline.
#[derive(Clone, Copy)]
pub(crate) enum Step<'a> {
    Open(Stamp),
    Start,
    Read(Stamp, u32),
    Note(Stamp, u32, Ordinal),
    Write(Stamp, u32, i32),
    Tune(Stamp, u16, u16, u16),
    Distance(Stamp, u32),
    Abort(Stamp),
    Commit(Stamp),
    Message(Stamp, u32),
    Newest(u32),
    Copy,
    Take(&'a [u8]),
    Look(u32),
    Compare,
}

// A line without its newline is too long.
pub(crate) fn step_of(line: &[u8]) -> Option<Step<'_>> {
    let text = line.strip_suffix(b"\n")?;
    if let Some(message) = line.strip_prefix(b"take ") {
        return Some(Step::Take(message));
    }
    let mut words = text.split(|b| *b == b' ');
    let word = words.next()?;
    let mut natural = || number(words.next());
    let step = match word {
        b"open" => Step::Open(Stamp(natural()?)),
        b"start" => Step::Start,
        b"read" => Step::Read(Stamp(natural()?), natural()?),
        b"note" => Step::Note(Stamp(natural()?), natural()?, Ordinal(natural()?)),
        b"write" => Step::Write(Stamp(natural()?), natural()?, value(words.next())?),
        b"tune" => Step::Tune(
            Stamp(natural()?),
            bound(natural()?)?,
            bound(natural()?)?,
            bound(natural()?)?,
        ),
        b"distance" => Step::Distance(Stamp(natural()?), natural()?),
        b"abort" => Step::Abort(Stamp(natural()?)),
        b"commit" => Step::Commit(Stamp(natural()?)),
        b"message" => Step::Message(Stamp(natural()?), natural()?),
        b"newest" => Step::Newest(natural()?),
        b"copy" => Step::Copy,
        b"look" => Step::Look(natural()?),
        b"compare" => Step::Compare,
        _ => return None,
    };
    if words.next().is_some() {
        return None;
    }
    Some(step)
}

fn bound(n: u32) -> Option<u16> {
    u16::try_from(n).ok()
}

fn number(word: Option<&[u8]>) -> Option<u32> {
    let word = word?;
    let n = whole(word, decimal::natural_at(word, 0, 0, u64::from(u32::MAX)))?;
    u32::try_from(n).ok()
}

fn value(word: Option<&[u8]>) -> Option<i32> {
    let word = word?;
    whole(word, decimal::signed_at(word, 0))
}

// What was read at the front of a word, where it is the word to its last byte.
fn whole<T: Copy>(word: &[u8], read: Option<(T, usize)>) -> Option<T> {
    match read? {
        (x, end) if end == word.len() => Some(x),
        _ => None,
    }
}
