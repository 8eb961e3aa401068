// The judge of written histories: one pass over the lines of a lent text, and its output in lent room, whole or not at all.
#![tactic(auto)]

ghost use Rattle.std.specs.Prelude.{◌≡◌};
ghost use Rattle.records.specs.Totals.{no_totals};
ghost use Rattle.verdict.specs.Judge.{report_of};
ghost use Rattle.verdict.specs.Reply.{reply_of, replied, room_after};
ghost use Rattle.verdict.specs.Pass.{came_reply, comes_to, ran_to, pass_end, passes};

use book::WORDS;
use history::Line;
use ledger::take;
use reader::{Reader, next};
use records::{Record, Totals};
use report::write_report;
use totals::raise;
use units::{Refusal, limits};

mod print;

pub use print::show;

// A refusal and its line (0 for 12 and 17).
#[derive(Clone, Copy, PartialEq, Eq)]
pub struct RefusedAt {
    pub refusal: Refusal,
    pub line: u32,
}

const LAST_LINE: u32 = limits::LINES as u32;

// The length of the output, or a refusal. The length of the text is looked at first, so that 12 stands before every line's refusal.
pub fn judge(text: &[u8], room: &mut [u8]) -> Result<usize, RefusedAt>
    ensures reply { reply_of result ≡ replied (report_of text.now) room.old }
    ensures buffer { room.new ≡ room_after (report_of text.now) room.old }
{
    if limits::HISTORY < text.len() {
        return Err(RefusedAt {
            refusal: Refusal::HistoryTooLong,
            line: 0,
        });
    }
    let mut memory = [0u32; WORDS];
    let totals = run(text, &mut memory)?;
    write_report(room, &memory, totals).map_err(|refusal| RefusedAt { refusal, line: 0 })
}

// The lines from the first on, and the memory as it is lent, where the verdicts stand afterwards. One reader goes from the first line to the last, and
// the totals are the ones that are handed over at the end: both are lent to the functions that move them.
fn run(text: &[u8], memory: &mut [u32; WORDS]) -> Result<Totals, RefusedAt>
    ensures { pass_end (ran_to result memory.new) memory.new ≡ passes text.now 0 1 no_totals memory.old }
{
    let mut reader = Reader { text, at: 0 };
    let mut totals = Totals::default();
    let mut line = 1;
    while let Some(e) = comes_to(line, next(&mut reader))? {
        take(memory, line, e).map_err(|refusal| RefusedAt { refusal, line })?;
        raise(&mut totals, e);
        line += 1;
    }
    Ok(totals)
}

// What a line comes to: a record, or None at the history's end. 14 before 13.
#[tactic(auto, unfolding(crate::specs::Pass::comes_to))]
fn comes_to(line: u32, l: Line) -> Result<Option<Record>, RefusedAt>
    ensures { came_reply result ≡ comes_to line l }
{
    let refusal = match l {
        Line::End => return Ok(None),
        Line::Taken(e, _) if line <= LAST_LINE => return Ok(Some(e)),
        Line::Bad if line <= LAST_LINE => Refusal::NotARecord,
        Line::Taken(_, _) | Line::Bad => Refusal::TooManyLines,
    };
    Err(RefusedAt { refusal, line })
}
