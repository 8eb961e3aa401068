// The judge's whole ledger in one lent array of words: where each thing lies, and how a row, a recorded read and a verdict are loaded and stored.
#![tactic(auto)]

ghost use Rattle.std.specs.Prelude.{◌≤◌, ◌/◌, ◌%◌, ◌≡◌};
ghost use Rattle.records.specs.Ledger.{no_row};
ghost use Rattle.records.specs.Order.{code_of};
ghost use Rattle.book.specs.Book.{key_word, row_count, read_count, verdict_count, row_loaded, row_stored, row_added, seen_added, judged_added};

use records::{ABORTED, Judged, Row, Seen};
use units::{Bounds, limits};

mod layout;

pub use layout::{
    ENDS, HIGHS, JUDGED_CODES, JUDGED_NAMES, K1S, K2S, K3S, LASTS, LOWS, NAMES, READS, ROWS,
    SEEN_BEFORES, SEEN_KEYS, SEEN_LINES, STARTS, VERDICTS, WORDS,
};

// How many rows, recorded reads and verdicts there are; a count past its limit counts as the limit.
pub fn rows(memory: &[u32; WORDS]) -> usize
    ensures { result ≡ row_count memory.now }
{
    (memory[ROWS] as usize).min(limits::TRANSACTIONS)
}

pub fn reads(memory: &[u32; WORDS]) -> usize
    ensures { result ≡ read_count memory.now }
{
    (memory[READS] as usize).min(limits::LINES)
}

pub fn verdicts(memory: &[u32; WORDS]) -> usize
    ensures { result ≡ verdict_count memory.now }
{
    (memory[VERDICTS] as usize).min(limits::TRANSACTIONS)
}

// The row of a number, counted from 1; where there is none, a row that has ended.
#[tactic(auto, unfolding(crate::specs::Book::row_loaded))]
pub fn load_row(memory: &[u32; WORDS], number: usize) -> Row
    ensures { result ≡ row_loaded memory.now number }
{
    match number.checked_sub(1) {
        Some(i) if i < limits::TRANSACTIONS => Row {
            name: memory[NAMES + i],
            start: memory[STARTS + i],
            end: memory[ENDS + i],
            keys: keys_of(memory[LOWS + i], memory[HIGHS + i]),
            bounds: Bounds {
                k1: bound_of(memory[K1S + i]),
                k2: bound_of(memory[K2S + i]),
                k3: bound_of(memory[K3S + i]),
            },
            last: memory[LASTS + i],
        },
        _ => NO_ROW,
    }
}

fn bound_of(w: u32) -> u16
    ensures { result ≡ w % 65536 }
{
    (w % 65536) as u16
}

// The word of the keys out of its halves.
pub fn keys_of(low: u32, high: u32) -> u64
    ensures { result ≡ key_word low high }
{
    u64::from(low) + (u64::from(high) << 32)
}

// What a number that no row has stands for.
const NO_ROW: Row = Row {
    name: 0,
    start: 0,
    end: ABORTED,
    keys: 0,
    bounds: Bounds {
        k1: 0,
        k2: 0,
        k3: 0,
    },
    last: 0,
};

// A row at a place, counted from 0; past the last place nothing is stored.
#[tactic(auto, unfolding(crate::specs::Book::row_stored))]
pub fn store_row(memory: &mut [u32; WORDS], place: usize, row: Row)
    ensures { memory.new ≡ row_stored memory.old place row }
{
    if place < limits::TRANSACTIONS {
        memory[NAMES + place] = row.name;
        memory[STARTS + place] = row.start;
        memory[ENDS + place] = row.end;
        memory[LOWS + place] = (row.keys % (1 << 32)) as u32;
        memory[HIGHS + place] = (row.keys >> 32) as u32;
        memory[K1S + place] = u32::from(row.bounds.k1);
        memory[K2S + place] = u32::from(row.bounds.k2);
        memory[K3S + place] = u32::from(row.bounds.k3);
        memory[LASTS + place] = row.last;
    }
}

// One row more; where there are 512, nothing is stored.
#[tactic(auto, unfolding(crate::specs::Book::row_added, crate::specs::Book::row_stored))]
pub fn add_row(memory: &mut [u32; WORDS], row: Row)
    ensures { memory.new ≡ row_added memory.old row }
{
    let n = rows(memory);
    if n < limits::TRANSACTIONS {
        store_row(memory, n, row);
        memory[ROWS] = (n + 1) as u32;
    }
}

// One recorded read more; where there are 4,096, nothing is stored.
#[tactic(auto, unfolding(crate::specs::Book::seen_added))]
pub fn add_read(memory: &mut [u32; WORDS], seen: Seen)
    ensures { memory.new ≡ seen_added memory.old seen }
{
    let n = reads(memory);
    if n < limits::LINES {
        memory[SEEN_KEYS + n] = seen.key;
        memory[SEEN_LINES + n] = seen.line;
        memory[SEEN_BEFORES + n] = seen.before;
        memory[READS] = (n + 1) as u32;
    }
}

// One verdict more, as its place in the order ok, RC, BV, FV, SV, WC; where there are 512, nothing is stored.
#[tactic(auto, unfolding(crate::specs::Book::judged_added))]
pub fn add_verdict(memory: &mut [u32; WORDS], judged: Judged)
    ensures { memory.new ≡ judged_added memory.old judged }
{
    let n = verdicts(memory);
    if n < limits::TRANSACTIONS {
        memory[JUDGED_NAMES + n] = judged.name;
        memory[JUDGED_CODES + n] = judged.verdict as u32;
        memory[VERDICTS] = (n + 1) as u32;
    }
}
