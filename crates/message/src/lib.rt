// A commit's message: the line that carries its versions to the copies, written and read.
#![tactic(auto)]

ghost use Rattle.std.specs.Prelude.{◌≤◌, ◌≡◌, length};
ghost use Rattle.message.specs.Line.{items_of, longest};

use units::{Batch, limits};

mod read;
mod write;

pub use read::{Message, read_message};
pub use write::write_message;

const LETTER: u8 = b'p';

// How many versions a batch has: a count past the limit counts as the limit.
pub fn size(batch: Batch) -> usize
    ensures { (result ≡ length (items_of batch)) × ((result ≤ batch.count) × (result ≤ 16)) }
{
    batch.count.min(limits::WRITES)
}

// Room for every message: "A message is at most 333 bytes".
pub fn longest() -> usize
    ensures { result ≡ longest }
{
    limits::MESSAGE
}
