// The replies of a session's steps, and the line that docs/SESSION.md gives each.
use comparison::Behind;
use master::Reading;
use texts::Text;
use units::{Refusal, Rule, Stamp, Version};

// A reply; the message is a line by itself.
#[derive(Clone, Copy)]
pub(crate) enum Reply<'a> {
    Open(Stamp),
    Start(Stamp),
    Read(Reading),
    Note(Reading),
    Write,
    Tune,
    Distance(i64),
    Abort,
    Commit(Stamp),
    Aborted(Rule),
    Message(&'a [u8]),
    Newest(Stamp),
    Copy,
    Take,
    Look(Version),
    Compare(Behind),
}

// Each put answers None where its text does not fit.
impl Reply<'_> {
    pub(crate) fn put<const N: usize>(self, out: &mut Text<N>) -> Option<()> {
        match self {
            Reply::Open(clock) => put_line(out, b"open", &[u64::from(clock.0)]),
            Reply::Start(name) => put_line(out, b"start", &[u64::from(name.0)]),
            Reply::Read(Reading::Version(v)) => put_version(out, b"read", v),
            Reply::Note(Reading::Version(v)) => put_version(out, b"note", v),
            Reply::Read(Reading::Own(value)) | Reply::Note(Reading::Own(value)) => {
                out.put(b"own")?;
                put_value(out, value)
            }
            Reply::Write => out.put(b"write\n"),
            Reply::Tune => out.put(b"tune\n"),
            Reply::Distance(d) => put_distance(out, d),
            Reply::Abort => out.put(b"abort\n"),
            Reply::Commit(stamp) => put_line(out, b"commit", &[u64::from(stamp.0)]),
            Reply::Aborted(rule) => put_rule(out, rule),
            Reply::Message(line) => out.put(line),
            Reply::Newest(stamp) => put_line(out, b"newest", &[u64::from(stamp.0)]),
            Reply::Copy => out.put(b"copy\n"),
            Reply::Take => out.put(b"take\n"),
            Reply::Look(v) => put_version(out, b"look", v),
            Reply::Compare(Behind { word, keys, lowest }) => put_line(
                out,
                b"compare",
                &[word, u64::from(keys), u64::from(lowest)],
            ),
        }
    }
}

pub(crate) fn put_refusal<const N: usize>(out: &mut Text<N>, refusal: Refusal) -> Option<()> {
    put_line(out, b"refused", &[u64::from(refusal.number())])
}

fn put_version<const N: usize>(out: &mut Text<N>, word: &[u8], v: Version) -> Option<()> {
    put_numbers(out, word, &[u64::from(v.ordinal.0), u64::from(v.stamp.0)])?;
    put_value(out, v.value)
}

fn put_distance<const N: usize>(out: &mut Text<N>, distance: i64) -> Option<()> {
    out.put(if distance < 0 {
        b"distance -"
    } else {
        b"distance "
    })?;
    out.put_natural(distance.unsigned_abs())?;
    out.put(b"\n")
}

// A broken rule, with the places of the reads or writes that broke it.
fn put_rule<const N: usize>(out: &mut Text<N>, rule: Rule) -> Option<()> {
    match rule {
        Rule::BV(i) => put_line(out, b"aborted BV", &[i as u64]),
        Rule::FV(i) => put_line(out, b"aborted FV", &[i as u64]),
        Rule::SV(i, j) => put_line(out, b"aborted SV", &[i as u64, j as u64]),
        Rule::WC(i) => put_line(out, b"aborted WC", &[i as u64]),
    }
}

fn put_line<const N: usize>(out: &mut Text<N>, words: &[u8], numbers: &[u64]) -> Option<()> {
    put_numbers(out, words, numbers)?;
    out.put(b"\n")
}

fn put_numbers<const N: usize>(out: &mut Text<N>, words: &[u8], numbers: &[u64]) -> Option<()> {
    out.put(words)?;
    for n in numbers {
        out.put(b" ")?;
        out.put_natural(*n)?;
    }
    Some(())
}

// The value at a line's end.
fn put_value<const N: usize>(out: &mut Text<N>, value: i32) -> Option<()> {
    out.put(b" ")?;
    out.put_signed(value)?;
    out.put(b"\n")
}
