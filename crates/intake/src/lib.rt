// A whole input, read into a lent room.
#![tactic(auto)]

ghost use Rattle.std.specs.Prelude.{◌≢◌, ◌<◌, ◌≤◌, IfErr, IfOk, length, take};
ghost use Rattle.std.specs.Io.KnownBytes.{Consumes, IsAtEnd};
ghost use Rattle.std.specs.IoError.{error_kind};

use std::io;
use std::io::{ErrorKind, Read};

// Reads until the room is full or the input ends, and answers how many bytes now stand at the room's front. A read that a signal interrupts is
// made again. A proved loop has to end, and nothing says that interruptions do: it counts them from a number that no run uses up, and behind it
// is an error, since what was read would not be the whole.
pub fn read_full<R: Read>(input: &mut R, room: &mut [u8]) -> io::Result<usize>
    ensures within { IfOk result (λ n. n ≤ length room.new) }
    ensures bytes { IfOk result (λ n. Consumes (R.remaining input.old) (R.remaining input.new) (take n room.new)) }
    ensures end { IfOk result (λ n. n < length room.new → IsAtEnd (R.remaining input.new)) }
    ensures retried { IfErr result (λ e. error_kind e ≢ ErrorKind.Interrupted) }
{
    let mut done = 0;
    for _ in 0..u64::MAX {
        if done == room.len() {
            return Ok(done);
        }
        match input.read(&mut room[done..]) {
            Ok(0) => return Ok(done),
            Ok(n) => done += n,
            Err(e) => {
                if e.kind() != ErrorKind::Interrupted {
                    return Err(e);
                }
            }
        }
    }
    Err(io::Error::new(ErrorKind::TimedOut, "too many reads"))
}
