// The totals of a written history, raised one line at a time. A struct of four counters is lent by &mut to one small function for each
// record that moves them: document 01, "What form each place takes".
#![tactic(auto)]

ghost use Rattle.std.specs.Prelude.{◌≡◌};
ghost use Rattle.records.specs.Totals.{raise_started, raise_committed, raise_aborted, raised};

use records::{Record, Totals};

// The totals after a record: it chooses the counters. No counter wraps; no history comes near the last number.
pub fn raise(t: &mut Totals, e: Record)
    ensures { t.new ≡ raised e t.old }
{
    match e {
        Record::Start(_) => raise_started(t),
        Record::Tune(_, _) => {}
        Record::Read(_, _, _) => {}
        Record::Write(_, _) => {}
        Record::Commit(_) => raise_committed(t),
        Record::Abort(_) => raise_aborted(t),
    }
}

pub fn raise_started(t: &mut Totals)
    ensures { t.new ≡ raise_started t.old }
{
    t.started = t.started.saturating_add(1);
    t.open = t.open.saturating_add(1);
}

pub fn raise_committed(t: &mut Totals)
    ensures { t.new ≡ raise_committed t.old }
{
    t.committed = t.committed.saturating_add(1);
    t.open = t.open.saturating_sub(1);
}

pub fn raise_aborted(t: &mut Totals)
    ensures { t.new ≡ raise_aborted t.old }
{
    t.aborted = t.aborted.saturating_add(1);
    t.open = t.open.saturating_sub(1);
}
