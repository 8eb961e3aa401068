// A line of a written history as a record: document 01, "Written histories".
#![tactic(auto)]

ghost use Rattle.std.specs.Prelude.{◌<◌, ◌≡◌, length};
ghost use Rattle.history.specs.Line.{ended, tune_at, read_at, write_at, behind_name, record_at, line_reply, line_said};

use decimal::{NEWLINE, byte_at, natural_behind_tab};
use records::Record;
use units::{Bounds, limits};

const LAST_NAME: u64 = limits::LAST_NAME as u64;

const LAST_KEY: u64 = limits::LAST_KEY as u64;

// The bounds are 16-bit numbers, and "any" is the last of them.
const LAST_BOUND: u64 = limits::ANY as u64;

// What stands in the text from a place on.
#[derive(Clone, Copy)]
pub enum Line {
    // A record, and the place of the next line.
    Taken(Record, usize),
    // A line not of the form, or unended.
    Bad,
    // Nothing is left.
    End,
}

pub fn line_at(text: &[u8], at: usize) -> Line
    ensures { line_reply result ≡ line_said text.now at }
{
    if text.len() <= at {
        return Line::End;
    }
    match record_at(text, at) {
        Some((r, next)) => Line::Taken(r, next),
        None => Line::Bad,
    }
}

// The record whose letter stands at a place, and the place of the next line.
fn record_at(text: &[u8], at: usize) -> Option<(Record, usize)>
    requires { at < length text.now }
    ensures { result ≡ record_at text.now at }
{
    let letter = text[at];
    let (t, e) = natural_behind_tab(text, at + 1, 1, LAST_NAME)?;
    behind_name(text, letter, t as u32, e)
}

// Every form begins with its letter and T; what follows goes by the letter.
fn behind_name(text: &[u8], letter: u8, t: u32, at: usize) -> Option<(Record, usize)>
    ensures { result ≡ behind_name text.now letter t at }
{
    match letter {
        b's' => ended(text, at, Record::Start(t)),
        b'k' => tune_at(text, t, at),
        b'r' => read_at(text, t, at),
        b'w' => write_at(text, t, at),
        b'c' => ended(text, at, Record::Commit(t)),
        b'a' => ended(text, at, Record::Abort(t)),
        _ => None,
    }
}

fn tune_at(text: &[u8], t: u32, at: usize) -> Option<(Record, usize)>
    ensures { result ≡ tune_at text.now t at }
{
    let (k1, a) = natural_behind_tab(text, at, 1, LAST_BOUND)?;
    let (k2, b) = natural_behind_tab(text, a, 0, LAST_BOUND)?;
    let (k3, e) = natural_behind_tab(text, b, 0, LAST_BOUND)?;
    let bounds = Bounds {
        k1: k1 as u16,
        k2: k2 as u16,
        k3: k3 as u16,
    };
    ended(text, e, Record::Tune(t, bounds))
}

fn read_at(text: &[u8], t: u32, at: usize) -> Option<(Record, usize)>
    ensures { result ≡ read_at text.now t at }
{
    let (key, a) = natural_behind_tab(text, at, 0, LAST_KEY)?;
    let (source, e) = natural_behind_tab(text, a, 0, LAST_NAME)?;
    ended(text, e, Record::Read(t, key as u8, source as u32))
}

fn write_at(text: &[u8], t: u32, at: usize) -> Option<(Record, usize)>
    ensures { result ≡ write_at text.now t at }
{
    let (key, e) = natural_behind_tab(text, at, 0, LAST_KEY)?;
    ended(text, e, Record::Write(t, key as u8))
}

// A record whose last field ends before a place.
fn ended(text: &[u8], at: usize, r: Record) -> Option<(Record, usize)>
    ensures { result ≡ ended text.now at r }
{
    if byte_at(text, at) != NEWLINE {
        return None;
    }
    Some((r, at + 1))
}
