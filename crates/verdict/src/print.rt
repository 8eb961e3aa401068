// What the program prints of an answer: the output that the judge left in the room, or the line of the refusal.
ghost use Rattle.std.specs.Prelude.{◌≡◌};
ghost use Rattle.verdict.specs.Reply.{reply_of};
ghost use Rattle.verdict.specs.Show.{shown_bytes, shown_room};

use crate::RefusedAt;
use report::write_refused;

// How many bytes at the front of the room are to be printed: none where a refusal's line does not go in.
#[tactic(auto, using(crate::proofs::Shown::printed_bytes))]
pub fn show(room: &mut [u8], answer: Result<usize, RefusedAt>) -> usize
    ensures reply { result ≡ shown_bytes (reply_of answer) room.old }
    ensures buffer { room.new ≡ shown_room (reply_of answer) room.old }
{
    match answer {
        Ok(n) => n,
        Err(r) => write_refused(room, r.refusal.number(), r.line).unwrap_or(0),
    }
}
