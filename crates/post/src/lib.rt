// The message of a commit, written from the master's memory into lent room.
#![tactic(auto)]

ghost use Rattle.std.specs.Prelude.{◌≡◌};
ghost use Rattle.memory.specs.Memory.{log_of};
ghost use Rattle.message.specs.Write.{message_reply};
ghost use Rattle.post.specs.Post.{posted, posted_room};

use memory::WORDS;
use units::{Refusal, Stamp};

// 18 where no commit wrote at that stamp, then 17 where the line is longer than the room.
pub fn send(memory: &[u32; WORDS], stamp: Stamp, room: &mut [u8]) -> Result<usize, Refusal>
    ensures reply { message_reply result ≡ posted (log_of memory.now) stamp.0 room.old }
    ensures buffer { room.new ≡ posted_room (log_of memory.now) stamp.0 room.old }
{
    let batch = master::made(memory, stamp)?;
    message::write_message(room, stamp, batch)
}
