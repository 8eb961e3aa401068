// The judge reads a history line by line from a place that it remembers: document 01, "What form each place takes". A reader holds the lent history
// and the place; what is done at the place is history::line_at's.
#![tactic(auto)]

ghost use Rattle.std.specs.Prelude.{◌≡◌};
ghost use Rattle.history.specs.Line.{line_reply, line_said};
ghost use Rattle.reader.specs.Reader.{moved_by};

use history::{Line, line_at};

#[derive(Clone, Copy)]
pub struct Reader<'a> {
    pub text: &'a [u8],
    pub at: usize,
}

// The line at the reader's place; the reader moves behind it. Where there is no record it stays.
#[tactic(auto, unfolding(crate::specs::Reader::place_after))]
pub fn next(r: &mut Reader) -> Line
    ensures line { line_reply result ≡ line_said r.old.text.now r.old.at }
    ensures reader { r.new ≡ moved_by result r.old }
{
    let line = line_at(r.text, r.at);
    match line {
        Line::Taken(_, next) => r.at = next,
        Line::Bad | Line::End => {}
    }
    line
}
