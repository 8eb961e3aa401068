// The step of the judge: what one record of a written history, at its line, does to the judge's memory. Any words are taken; a read or a verdict for
// which there is no room is dropped, which no history of 4,096 lines comes to.
#![tactic(auto)]

ghost use Rattle.std.specs.Prelude.{◌≡◌, []};
ghost use Rattle.records.specs.Parts.{name_of};
ghost use Rattle.records.specs.Ledger.{fresh_row, changed, noted, begun, line_step};
ghost use Rattle.book.specs.Book.{ledger_of, read_count, rows_in, row_added};
ghost use Rattle.rows.specs.Table.{row_number};
ghost use Rattle.ledger.specs.Take.{taken_reply, reply_to, on_reply, booked, settled, seen_pushed};

use book::{WORDS, add_read, add_row, add_verdict, load_row, store_row};
use records::{ABORTED, Judged, Record, Row, Seen};
use rows::{find, has, resolve};
use trial::verdict_on;
use units::{Bounds, Refusal, limits};

// One record at its line. On a refusal every word stays as it was.
#[tactic(auto, using(crate::proofs::Cases::not_start, rows::proofs::Walk::newest_row), unfolding(crate::specs::Take::booked, records::specs::Ledger::line_step))]
pub fn take(memory: &mut [u32; WORDS], line: u32, e: Record) -> Result<(), Refusal>
    ensures reply { taken_reply result ≡ reply_to (line_step line e (ledger_of memory.old)) }
    ensures memory { memory.new ≡ booked memory.old line e }
{
    let number = find(memory, name_of(e));
    if let Record::Start(name) = e {
        return begin(memory, line, name, number);
    }
    let row = load_row(memory, number);
    if row.end != 0 {
        return Err(Refusal::WrongTransaction);
    }
    settle(memory, line, e, number.saturating_sub(1), row);
    Ok(())
}

fn name_of(e: Record) -> u32
    ensures { result ≡ name_of e }
{
    match e {
        Record::Start(t)
        | Record::Tune(t, _)
        | Record::Read(t, _, _)
        | Record::Write(t, _)
        | Record::Commit(t)
        | Record::Abort(t) => t,
    }
}

// A start: "a number used before" is refused, and so is the 513th.
#[tactic(auto, using(crate::proofs::Cases::begin_used, crate::proofs::Cases::begin_full, crate::proofs::Cases::begin_goes))]
fn begin(memory: &mut [u32; WORDS], line: u32, name: u32, number: usize) -> Result<(), Refusal>
    requires { number ≡ row_number (rows_in memory.old) name }
    ensures reply { taken_reply result ≡ reply_to (begun line name (ledger_of memory.old)) }
    ensures memory { memory.new ≡ on_reply (reply_to (begun line name (ledger_of memory.old))) memory.old (row_added memory.old (fresh_row line name)) }
{
    if 0 < number {
        return Err(Refusal::WrongTransaction);
    }
    if limits::TRANSACTIONS <= book::rows(memory) {
        return Err(Refusal::TooManyTransactions);
    }
    let row = Row {
        name,
        start: line,
        end: 0,
        keys: 0,
        bounds: Bounds::CALIBRATION,
        last: 0,
    };
    add_row(memory, row);
    Ok(())
}

// Any other record of an open transaction, whose row stands at a place. A start does not come here; it would change nothing of its row.
#[tactic(auto, using(crate::proofs::Cases::shifted), unfolding(crate::specs::Take::settled, crate::specs::Take::seen_pushed, crate::specs::Take::judged_pushed, records::specs::Ledger::noted, records::specs::Ledger::concluded, records::specs::Ledger::changed))]
fn settle(memory: &mut [u32; WORDS], line: u32, e: Record, place: usize, row: Row)
    ensures { memory.new ≡ settled memory.old line e place row }
{
    let after = match e {
        Record::Start(_) => row,
        Record::Tune(_, bounds) => Row { bounds, ..row },
        Record::Read(_, key, w) => note(memory, key, w, row),
        Record::Write(_, key) => Row {
            keys: row.keys | 1 << (key % 64),
            ..row
        },
        Record::Commit(name) => {
            let verdict = verdict_on(memory, line, row);
            add_verdict(memory, Judged { name, verdict });
            Row { end: line, ..row }
        }
        Record::Abort(_) => Row {
            end: ABORTED,
            ..row
        },
    };
    store_row(memory, place, after);
}

// A read, which is recorded as the row's last. An own read after the own write is no record.
#[tactic(auto, unfolding(crate::specs::Take::seen_pushed, records::specs::Ledger::noted, records::specs::Ledger::changed))]
fn note(memory: &mut [u32; WORDS], key: u8, w: u32, row: Row) -> Row
    ensures row { result ≡ changed 0 (read_count memory.old) (Record.Read 0 key w) row }
    ensures memory { memory.new ≡ seen_pushed memory.old (noted (rows_in memory.old) (Record.Read 0 key w) row []) }
{
    if w == row.name && has(row.keys, u32::from(key)) {
        return row;
    }
    let last = (book::reads(memory) + 1) as u32;
    let seen = Seen {
        key: u32::from(key),
        line: resolve(memory, w, key),
        before: row.last,
    };
    add_read(memory, seen);
    Row { last, ..row }
}
