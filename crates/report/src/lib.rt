// What the judge prints, as text in lent room: whole, or not at all.
#![tactic(auto)]

ghost use Rattle.std.specs.Prelude.{◌≡◌, reverse};
ghost use Rattle.decimal.specs.Write.{put};
ghost use Rattle.book.specs.Book.{judged_in};
ghost use Rattle.report.specs.Report.{report_text, refused_text};
ghost use Rattle.report.specs.Write.{written_reply, written_as};

use book::{JUDGED_CODES, JUDGED_NAMES, WORDS};
use decimal::put_text;
use records::Totals;
use texts::Text;
use units::Refusal;

mod text;

use text::{head, refused, total, verdict};

// Room for any report: 27 bytes for its head, 24 for each of 512 verdicts, 90 for its totals, since a number is at most 20 digits.
const LONGEST: usize = 12405;

// Room for any refusal: 8 bytes for its word, 21 for each number.
const LONGEST_REFUSED: usize = 50;

// The verdicts that stand in the judge's memory, in order of commit lines; the length of the text, or NoRoom where the lent room is shorter.
pub fn write_report(
    room: &mut [u8],
    memory: &[u32; WORDS],
    totals: Totals,
) -> Result<usize, Refusal>
    ensures reply { written_reply result ≡ written_as room.old (report_text (reverse (judged_in memory.now)) totals) }
    ensures buffer { room.new ≡ put room.old 0 (report_text (reverse (judged_in memory.now)) totals) }
{
    let n = book::verdicts(memory);
    let mut text = Text::<LONGEST>::new();
    head(&mut text, n);
    for i in 0..n {
        verdict(
            &mut text,
            memory[JUDGED_NAMES + i],
            memory[JUDGED_CODES + i],
        );
    }
    total(&mut text, totals);
    hand_over(room, text.bytes())
}

// A refusal's number and its line; the length of the text, or NoRoom.
pub fn write_refused(room: &mut [u8], number: u8, line: u32) -> Result<usize, Refusal>
    ensures reply { written_reply result ≡ written_as room.old (refused_text number line) }
    ensures buffer { room.new ≡ put room.old 0 (refused_text number line) }
{
    let mut text = Text::<LONGEST_REFUSED>::new();
    refused(&mut text, number, line);
    hand_over(room, text.bytes())
}

// A text at the front of the room, where it fits.
#[tactic(auto, using(crate::proofs::Handed::handed))]
fn hand_over(room: &mut [u8], text: &[u8]) -> Result<usize, Refusal>
    ensures reply { written_reply result ≡ written_as room.old text.now }
    ensures buffer { room.new ≡ put room.old 0 text.now }
{
    put_text(room, 0, text).ok_or(Refusal::NoRoom)
}
