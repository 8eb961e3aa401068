// The transaction as a value: tuned, recorded and written, it is handed back.
#![tactic(auto)]

ghost use Rattle.std.specs.Prelude.{◌≡◌, get_or};
ghost use Rattle.std.specs.List.{position};
ghost use Rattle.transaction.specs.Transaction.{is_key, fresh, tuned, ended, recorded, written, wrote_at, pending_of, reads_of, writes_of, no_mark};

use units::{Bounds, Ordinal, Stamp, limits};

// A recorded read: the version of a key that was read, by its ordinal and its stamp.
#[derive(Clone, Copy, PartialEq, Eq)]
pub struct Mark {
    pub key: u32,
    pub ordinal: Ordinal,
    pub stamp: Stamp,
}

impl Mark {
    // The read of nothing, in the places that don't count.
    pub const NONE: Mark = Mark {
        key: 0,
        ordinal: Ordinal(0),
        stamp: Stamp(0),
    };
}

// A written key and its pending value.
#[derive(Clone, Copy, PartialEq, Eq)]
pub struct Write {
    pub key: u32,
    pub value: i32,
}

impl Write {
    pub const NONE: Write = Write { key: 0, value: 0 };
}

// The first `recorded` of the reads, in recording order, and the first `written` of the writes, in the order of first
// writing, count; the places behind them mean nothing. A transaction that has ended is not live.
#[derive(Clone, Copy)]
pub struct Transaction {
    pub name: Stamp,
    pub live: bool,
    pub bounds: Bounds,
    pub reads: [Mark; limits::READS],
    pub recorded: u32,
    pub writes: [Write; limits::WRITES],
    pub written: u32,
}

impl Transaction {
    pub fn fresh(name: Stamp) -> Transaction
        ensures { result ≡ fresh name.0 }
    {
        Transaction {
            name,
            live: true,
            bounds: Bounds::DEFAULT,
            reads: [Mark::NONE; limits::READS],
            recorded: 0,
            writes: [Write::NONE; limits::WRITES],
            written: 0,
        }
    }

    pub fn tune(mut self, bounds: Bounds) -> Transaction
        ensures { result ≡ tuned self bounds }
    {
        self.bounds = bounds;
        self
    }

    pub fn end(mut self) -> Transaction
        ensures { result ≡ ended self }
    {
        self.live = false;
        self
    }

    // A 17th read is not recorded.
    pub fn record(mut self, mark: Mark) -> Transaction
        ensures { result ≡ recorded self mark }
    {
        let n = self.recorded as usize;
        if n < limits::READS {
            self.reads[n] = mark;
            self.recorded = (n + 1) as u32;
        }
        self
    }

    // The recorded reads, in recording order.
    pub fn reads(&self) -> &[Mark]
        ensures { result.now ≡ reads_of self.now }
    {
        &self.reads[..(self.recorded as usize).min(limits::READS)]
    }

    // The read at a place; the read of nothing where none is recorded there.
    pub fn read_at(self, i: usize) -> Mark
        ensures { result ≡ get_or (reads_of self) i no_mark }
    {
        self.reads().get(i).copied().unwrap_or(Mark::NONE)
    }

    // The written keys, in the order of first writing, each with its pending value.
    pub fn writes(&self) -> &[Write]
        ensures { result.now ≡ writes_of self.now }
    {
        &self.writes[..(self.written as usize).min(limits::WRITES)]
    }

    // The place of a key among those written, or how many there are.
    pub fn wrote_at(self, key: u32) -> usize
        ensures { result ≡ wrote_at self key }
    {
        let writes = self.writes();
        position(writes, key).unwrap_or(writes.len())
    }

    // A second write of a key replaces its value; a 17th key is not written.
    pub fn write(mut self, key: u32, value: i32) -> Transaction
        ensures { result ≡ written self key value }
    {
        let i = self.wrote_at(key);
        if i < limits::WRITES {
            self.writes[i] = Write { key, value };
            self.written = self.written.max((i + 1) as u32);
        }
        self
    }

    // The transaction's own pending value of a key.
    pub fn pending(self, key: u32) -> Option<i32>
        ensures { result ≡ pending_of self key }
    {
        let w = self.writes().get(self.wrote_at(key))?;
        Some(w.value)
    }
}

// The place of a key among the first writes of each.
fn position(writes: &[Write], key: u32) -> Option<usize>
    ensures { result ≡ position (is_key key) writes.now }
{
    writes.iter().position(|w| w.key == key)
}
