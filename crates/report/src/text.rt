// The lines of the output, each put behind a text that has room for it.
ghost use Rattle.std.specs.Prelude.{◌+◌, ◌≤◌, ◌≡◌, ◌∷◌, ◌++◌, length};
ghost use Rattle.decimal.specs.Text.{decimal};
ghost use Rattle.records.specs.Order.{verdict_from};
ghost use Rattle.report.specs.Report.{verdict_word, head_line, verdict_line, total_line, refused_text};

use crate::{LONGEST, LONGEST_REFUSED};
use records::Totals;
use texts::Text;

// The line of `judge`.
#[tactic(auto, unfolding(crate::specs::Report::head_line, crate::specs::Report::spaced_line))]
pub(crate) fn head(text: &mut Text<LONGEST>, n: usize)
    requires { length text.old + 27 ≤ 12405 }
    ensures text { text.new ≡ text.old ++ head_line n }
    ensures length { length text.new ≤ length text.old + 27 }
{
    word(text, b"judge");
    field(text, n as u64);
    word(text, b"\n");
}

// The line of a transaction.
#[tactic(auto, unfolding(crate::specs::Report::verdict_line, crate::specs::Report::spaced_line))]
pub(crate) fn verdict(text: &mut Text<LONGEST>, name: u32, code: u32)
    requires { length text.old + 24 ≤ 12405 }
    ensures text { text.new ≡ text.old ++ verdict_line (record { name = name; verdict = verdict_from code }) }
    ensures length { length text.new ≤ length text.old + 24 }
{
    number(text, u64::from(name));
    word(text, b" ");
    word(text, &word_of(code));
    word(text, b"\n");
}

// The line of the totals.
#[tactic(auto, unfolding(crate::specs::Report::total_line, crate::specs::Report::spaced_line))]
pub(crate) fn total(text: &mut Text<LONGEST>, totals: Totals)
    requires { length text.old + 90 ≤ 12405 }
    ensures { text.new ≡ text.old ++ total_line totals }
{
    word(text, b"total");
    field(text, u64::from(totals.started));
    field(text, u64::from(totals.committed));
    field(text, u64::from(totals.aborted));
    field(text, u64::from(totals.open));
    word(text, b"\n");
}

// The line of a refusal.
#[tactic(auto, unfolding(crate::specs::Report::refused_text, crate::specs::Report::spaced_line))]
pub(crate) fn refused(text: &mut Text<LONGEST_REFUSED>, number: u8, line: u32)
    requires { length text.old + 50 ≤ 50 }
    ensures { text.new ≡ text.old ++ refused_text number line }
{
    word(text, b"refused");
    field(text, u64::from(number));
    field(text, u64::from(line));
    word(text, b"\n");
}

#[tactic(auto, using(texts::proofs::Growing::fitted_room, texts::proofs::Growing::grown_room))]
fn word<const N: usize>(text: &mut Text<N>, word: &[u8])
    requires { length text.old + length word.now ≤ N }
    ensures { text.new ≡ text.old ++ word.now }
{
    text.put(word).unwrap();
}

#[tactic(auto, using(texts::proofs::Growing::fitted_room, texts::proofs::Growing::grown_room, decimal::proofs::Digits::decimal_64))]
fn number<const N: usize>(text: &mut Text<N>, n: u64)
    requires { length text.old + 20 ≤ N }
    ensures text { text.new ≡ text.old ++ decimal n }
    ensures digits { length (decimal n) ≤ 20 }
{
    text.put_natural(n).unwrap();
}

// A number behind a space.
fn field<const N: usize>(text: &mut Text<N>, n: u64)
    requires { length text.old + 21 ≤ N }
    ensures text { text.new ≡ text.old ++ 32 ∷ decimal n }
    ensures digits { length (decimal n) ≤ 20 }
{
    word(text, b" ");
    number(text, n);
}

// The word of a verdict's code.
#[tactic(auto, using(records::proofs::Order::verdict_past), unfolding(crate::specs::Report::verdict_word, records::specs::Order::verdict_from))]
fn word_of(code: u32) -> [u8; 2]
    ensures { result ≡ verdict_word (verdict_from code) }
{
    match code {
        0 => *b"ok",
        1 => *b"RC",
        2 => *b"BV",
        3 => *b"FV",
        4 => *b"SV",
        _ => *b"WC",
    }
}
