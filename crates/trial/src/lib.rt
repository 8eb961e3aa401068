// The trial of a commit: its recorded reads, walked from its last one back, and the rows of the other transactions, in the judge's memory.
#![tactic(auto)]

ghost use Rattle.std.specs.Prelude.{◌≡◌};
ghost use Rattle.records.specs.Ledger.{chain, verdict_on};
ghost use Rattle.book.specs.Book.{rows_in, seens_in};
ghost use Rattle.trial.specs.Trial.{latest_of, rank_of, first_of, far_by};

use book::WORDS;
use records::{NOWHERE, Row, Seen, Verdict};
use rows::{count_both, overtaken};

mod reads;

use reads::Reads;

// The first rule that a read breaks, in the order in which the judge names them; Kept where it breaks none of these.
#[derive(Clone, Copy, PartialEq, Eq, PartialOrd, Ord)]
enum Rank {
    RC,
    BV,
    FV,
    SV,
    Kept,
}

// What the rules say of a commit at a line: ok, or the first that is broken of RC, BV, FV, SV and WC. Of the lines read, only the latest
// matters as SV's y, since more versions lie before a later line.
pub fn verdict_on(memory: &[u32; WORDS], line: u32, row: Row) -> Verdict
    ensures { result ≡ verdict_on (rows_in memory.now) (chain (seens_in memory.now) row.last) line row }
{
    let y = latest(memory, row.last);
    match first_broken(memory, row, y) {
        Rank::RC => Verdict::RC,
        Rank::BV => Verdict::BV,
        Rank::FV => Verdict::FV,
        Rank::SV => Verdict::SV,
        Rank::Kept if overtaken(memory, line, row) => Verdict::WC,
        Rank::Kept => Verdict::Ok,
    }
}

// The latest line read.
fn latest(memory: &[u32; WORDS], last: u32) -> u32
    ensures { result ≡ latest_of (chain (seens_in memory.now) last) }
{
    Reads::new(memory, last).fold(0, |y, seen| y.max(seen.line))
}

// The first rule that a read breaks, against the latest line read.
fn first_broken(memory: &[u32; WORDS], row: Row, y: u32) -> Rank
    ensures { result ≡ first_of (rows_in memory.now) row y (chain (seens_in memory.now) row.last) }
{
    Reads::new(memory, row.last).fold(
        Rank::Kept,
        |rank, seen| rank.min(rank_of(memory, row, y, seen)),
    )
}

// The first rule that one read breaks. The versions between the start and the line read are its distance, either way.
fn rank_of(memory: &[u32; WORDS], row: Row, y: u32, seen: Seen) -> Rank
    ensures { result ≡ rank_of (rows_in memory.now) row y seen }
{
    if seen.line == NOWHERE {
        return Rank::RC;
    }
    let low = row.start.min(seen.line);
    let high = row.start.max(seen.line);
    let counted = count_both(memory, seen.key, low, high, seen.line, y);
    let far = far_by(row, seen.line, counted.within);
    far.min(if u32::from(row.bounds.k3) < counted.between {
        Rank::SV
    } else {
        Rank::Kept
    })
}

// BV and FV by the distance, which is not negative where the line read is at or before the start, and not positive where it is after.
#[tactic(auto, unfolding(crate::specs::Trial::far_by))]
fn far_by(row: Row, line: u32, n: u32) -> Rank
    ensures { result ≡ far_by row line n }
{
    let bounds = row.bounds;
    if line <= row.start && u32::from(bounds.k1) <= n {
        Rank::BV
    } else if row.start < line && u32::from(bounds.k2) < n {
        Rank::FV
    } else if row.start < line && n == 0 && bounds.k1 == 0 {
        Rank::BV
    } else {
        Rank::Kept
    }
}
