// The rows of the transactions started, in the judge's memory: the newest of a name, the versions of a key between two lines, and what WC asks.
#![tactic(auto)]

ghost use Rattle.std.specs.Prelude.{◌<◌, ◌≡◌, ◌≤◌, ◌&&◌, false, leb, ltb};
ghost use Rattle.lists.specs.Lists.{any};
ghost use Rattle.records.specs.Ledger.{has, meets, overtakes, resolved, rows_between};
ghost use Rattle.book.specs.Book.{key_word, rows_in};
ghost use Rattle.rows.specs.Table.{row_number, rows_within, half_from};

use book::{ENDS, HIGHS, LOWS, NAMES, WORDS};
use records::{NOWHERE, Row};

// The newest row of a name, by its number from 1; 0 where there is none.
#[tactic(auto, using(crate::proofs::Walk::place_over, crate::proofs::Walk::place_hit, crate::proofs::Walk::place_miss))]
pub fn find(memory: &[u32; WORDS], name: u32) -> usize
    ensures { result ≡ row_number (rows_in memory.now) name }
{
    // By `while`, since a `for` over the numbers backwards takes the judge longer.
    let mut i = book::rows(memory);
    while 0 < i {
        if memory[NAMES + (i - 1)] == name {
            return i;
        }
        i -= 1;
    }
    0
}

// A word has a bit for each of the 64 keys.
#[tactic(auto, using(crate::proofs::Words::has_past))]
pub fn has(word: u64, key: u32) -> bool
    ensures { result ≡ has word key }
{
    key < 64 && (word >> key) % 2 == 1
}

// The versions of a key in two spans of lines.
#[derive(Clone, Copy)]
pub struct Counted {
    pub within: u32,
    pub between: u32,
}

// The versions of a key committed after one line and at or before another, and those committed strictly between two lines. Where no line is
// between the two, the second are not looked for.
#[tactic(auto, using(crate::proofs::Halves::within_past, crate::proofs::Halves::between_past, crate::proofs::Halves::between_last))]
pub fn count_both(
    memory: &[u32; WORDS],
    key: u32,
    after: u32,
    until: u32,
    from: u32,
    before: u32,
) -> Counted
    ensures within { result.within ≡ rows_within (rows_in memory.now) key after until }
    ensures between { result.between ≡ rows_between (rows_in memory.now) key from before }
{
    if 64 <= key {
        return Counted {
            within: 0,
            between: 0,
        };
    }
    let within = Span { after, until };
    // Strictly before a line is at or before the line in front of it.
    let between = Span {
        after: from,
        until: before.saturating_sub(1),
    };
    if from < before {
        count::<true>(memory, key, within, between)
    } else {
        count::<false>(memory, key, within, between)
    }
}

// The lines after one and at or before another.
#[derive(Clone, Copy)]
struct Span {
    after: u32,
    until: u32,
}

// The judge's hot loop: one walk for both spans, or for the first alone.
#[tactic(auto, using(crate::proofs::Halves::half_le), unfolding(crate::specs::Table::rows_within, book::specs::Book::rows_of, lists::specs::Lists::count))]
fn count<const BOTH: bool>(memory: &[u32; WORDS], key: u32, within: Span, between: Span) -> Counted
    requires key { key < 64 }
    requires alone { BOTH ≡ false → between.until ≤ between.after }
    ensures within { result.within ≡ rows_within (rows_in memory.now) key within.after within.until }
    ensures between { result.between ≡ rows_within (rows_in memory.now) key between.after between.until }
{
    let half = half_of(key);
    let bit = key % 32;
    let mut n = 0;
    let mut m = 0;
    for i in 0..book::rows(memory) {
        let end = memory[ENDS + i];
        n += u32::from(is_within(memory[half + i], bit, end, within));
        if BOTH {
            m += u32::from(is_within(memory[half + i], bit, end, between));
        }
    }
    Counted {
        within: n,
        between: m,
    }
}

// A row with the key whose commit line is in the span. The lines are asked first, since few rows are within them.
fn is_within(half: u32, bit: u32, end: u32, span: Span) -> bool
    requires { bit < 32 }
    ensures { result ≡ (has half bit && (ltb span.after end && leb end span.until)) }
{
    span.after < end && end <= span.until && (half >> bit) % 2 == 1
}

// Where the half of the word that has a key begins.
#[tactic(auto, unfolding(crate::specs::Table::half_from))]
fn half_of(key: u32) -> usize
    ensures { result ≡ half_from key }
{
    if key < 32 { LOWS } else { HIGHS }
}

// Whether some row breaks WC for the row's own commit at a line. Every row is asked, with no way out at the first that does, so that the walk
// stays a plain count.
pub fn overtaken(memory: &[u32; WORDS], line: u32, row: Row) -> bool
    ensures { result ≡ any (overtakes line row) (rows_in memory.now) }
{
    let mut n = 0;
    for i in 0..book::rows(memory) {
        let end = memory[ENDS + i];
        let met = is_met(memory[LOWS + i], memory[HIGHS + i], row.keys);
        n += u32::from((row.start < end) & ((end < line) & met));
    }
    0 < n
}

// Whether two sets of keys have one in common, of which one stands in halves: half by half, so that more rows go through the machine at a time.
fn is_met(low: u32, high: u32, keys: u64) -> bool
    ensures { result ≡ meets (key_word low high) keys }
{
    (low & (keys % (1 << 32)) as u32) | (high & (keys >> 32) as u32) != 0
}

// The line of W's commit where W committed and wrote the key, 0 for the start version, else NOWHERE.
#[tactic(auto, using(crate::proofs::Walk::newest_row), unfolding(records::specs::Ledger::resolved))]
pub fn resolve(memory: &[u32; WORDS], w: u32, key: u8) -> u32
    ensures { result ≡ resolved (rows_in memory.now) w key }
{
    if w == 0 {
        return 0;
    }
    let row = book::load_row(memory, find(memory, w));
    if has(row.keys, u32::from(key)) && 0 < row.end && row.end < NOWHERE {
        row.end
    } else {
        NOWHERE
    }
}
