// The rules of RVSI for a transaction, against the log of the master's memory: BV, FV, SV, WC in document 01's order, the first
// that is broken and its place. A count of reads or writes past 16 counts as 16.
#![tactic(auto)]

ghost use Rattle.std.specs.Prelude.{◌≡◌, not, pos, neg_ℤ};
ghost use Rattle.std.specs.Int.Signed.{lt_z, le_z};
ghost use Rattle.std.specs.List.{position};
ghost use Rattle.transaction.specs.Transaction.{reads_of, writes_of};
ghost use Rattle.model.specs.Rules.{distance, apart, overtaken, certified};
ghost use Rattle.memory.specs.Memory.{log_of};
ghost use Rattle.rules.specs.Tests.{outside, parted, torn, latest};

use counts::{changed_after, count_between, count_up_to};
use memory::WORDS;
use transaction::{Mark, Transaction};
use units::{Rule, Stamp};

// "O_x(s) − O_x(c_j), with its sign", of a read by a transaction started at `start`.
pub fn distance_of(memory: &[u32; WORDS], start: Stamp, read: Mark) -> i64
    ensures { result ≡ distance (log_of memory.now) start.0 read }
{
    let at_start = count_up_to(memory, read.key, start);
    let at_read = count_up_to(memory, read.key, read.stamp);
    i64::from(at_start) - i64::from(at_read)
}

// The first broken rule, with the place of the read or written key that broke it.
#[tactic(auto, using(crate::proofs::Verdict::verdicts))]
pub fn certify(memory: &[u32; WORDS], t: Transaction) -> Result<(), Rule>
    ensures { result ≡ certified (log_of memory.now) t }
{
    all_within(memory, &t)?;
    none_apart(memory, &t)?;
    match first_overtaken(memory, &t) {
        Some(w) => Err(Rule::WC(w)),
        None => Ok(()),
    }
}

// BV and FV of all reads, with one distance for each: a stale read is the answer at once, whatever was early before it, and the
// first early one is the answer where none is stale.
fn all_within(memory: &[u32; WORDS], t: &Transaction) -> Result<(), Rule>
    ensures { result ≡ outside (log_of memory.now) t.now }
{
    let b = t.bounds;
    let mut early = None;
    for (i, read) in t.reads().iter().enumerate() {
        let d = distance_of(memory, t.name, *read);
        if is_stale(d, b.k1) {
            return Err(Rule::BV(i));
        }
        early = early.or(is_early(d, b.k2).then_some(i));
    }
    match early {
        Some(i) => Err(Rule::FV(i)),
        None => Ok(()),
    }
}

// SV: the pair with the lowest place of x, and among these the lowest place of y.
#[tactic(auto, using(crate::proofs::Verdict::verdicts))]
fn none_apart(memory: &[u32; WORDS], t: &Transaction) -> Result<(), Rule>
    ensures { result ≡ parted (log_of memory.now) t.now }
{
    let reads = t.reads();
    if let Some(x) = first_torn(memory, t, latest(reads)) {
        if let Some(y) = first_apart(memory, t, reads[x]) {
            return Err(Rule::SV(x, y));
        }
    }
    Ok(())
}

// The first read that is apart from some read: a count between two stamps grows with the later one, so the latest stamp read
// answers for all.
fn first_torn(memory: &[u32; WORDS], t: &Transaction, last: Stamp) -> Option<usize>
    ensures { result ≡ position (torn (log_of memory.now) t.now last.0) (reads_of t.now) }
{
    let k3 = u32::from(t.bounds.k3);
    t.reads()
        .iter()
        .position(|x| k3 < count_between(memory, x.key, x.stamp, last))
}

// The first read that a read is apart from.
fn first_apart(memory: &[u32; WORDS], t: &Transaction, x: Mark) -> Option<usize>
    ensures { result ≡ position (apart (log_of memory.now) t.now x) (reads_of t.now) }
{
    let k3 = u32::from(t.bounds.k3);
    t.reads()
        .iter()
        .position(|y| k3 < count_between(memory, x.key, x.stamp, y.stamp))
}

// WC: the first written key that another transaction has changed since the start.
fn first_overtaken(memory: &[u32; WORDS], t: &Transaction) -> Option<usize>
    ensures { result ≡ position (overtaken (log_of memory.now) t.now) (writes_of t.now) }
{
    t.writes()
        .iter()
        .position(|w| changed_after(memory, w.key, t.name))
}

// The latest stamp of a version read; 0 where none was read.
fn latest(reads: &[Mark]) -> Stamp
    ensures { result.0 ≡ latest reads.now }
{
    let mut last: u32 = 0;
    for read in reads {
        last = last.max(read.stamp.0);
    }
    Stamp(last)
}

// BV: "distance less than k1".
fn is_stale(d: i64, k1: u16) -> bool
    ensures { result ≡ not (lt_z d (pos k1)) }
{
    i64::from(k1) <= d
}

// FV: "minus the distance at most k2". Of a 64-bit number the negation may not fit; `!k2` is -k2 - 1.
fn is_early(d: i64, k2: u16) -> bool
    ensures { result ≡ not (le_z (neg_ℤ d) (pos k2)) }
{
    d <= !i64::from(k2)
}
