// A written history: its records, a transaction's row, the totals, and what they mean. Types, definitions and theorems; no code.
#![tactic(auto)]

use units::Bounds;

// A line of a written history. The first number is the transaction's own.
#[derive(Clone, Copy, PartialEq, Eq)]
pub enum Record {
    Start(u32),
    Tune(u32, Bounds),
    // The key, and the transaction whose version was read; 0 for the start version.
    Read(u32, u8, u32),
    Write(u32, u8),
    Commit(u32),
    Abort(u32),
}

// What the judge says of a committed transaction: ok, or the first rule that it broke.
#[derive(Clone, Copy, PartialEq, Eq)]
pub enum Verdict {
    Ok,
    RC,
    BV,
    FV,
    SV,
    WC,
}

// What the judge remembers of a transaction: its number, the line of its start, its end (0 while it is open, the line of its commit,
// or ABORTED), the word of the keys that it wrote, its bounds, and the number of its last recorded read (0 for none).
#[derive(Clone, Copy, PartialEq, Eq)]
pub struct Row {
    pub name: u32,
    pub start: u32,
    pub end: u32,
    pub keys: u64,
    pub bounds: Bounds,
    pub last: u32,
}

// A recorded read: its key, the line of the commit that made the version read (0 for the start version, NOWHERE where the reading
// rule is broken), and the number of the same transaction's read before it (0 for none). Reads are numbered from 1.
#[derive(Clone, Copy, PartialEq, Eq)]
pub struct Seen {
    pub key: u32,
    pub line: u32,
    pub before: u32,
}

#[derive(Clone, Copy, PartialEq, Eq)]
pub struct Judged {
    pub name: u32,
    pub verdict: Verdict,
}

#[derive(Clone, Copy, PartialEq, Eq, Default)]
pub struct Totals {
    pub started: u32,
    pub committed: u32,
    pub aborted: u32,
    pub open: u32,
}

// No line of a history has this number. An aborted transaction ends nowhere: it made no version.
pub const NOWHERE: u32 = 4294967295;

pub const ABORTED: u32 = NOWHERE;
