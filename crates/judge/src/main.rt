// Judges one written history from standard input: document 01, "The program reads one history ..". The promises are those of verdict::judge
// and verdict::show; this file only reads, and writes what they made.
#![tactic(auto)]

use intake::read_full;
use std::io;
use units::limits;

// A byte more than a history may have: a longer input fills it, which is refusal 12 however long it is.
const INPUT: usize = limits::HISTORY + 1;

const OUTPUT: usize = 8192;

fn main(rt: HostRuntime) -> io::Result<()> {
    let mut text = [0u8; INPUT];
    let mut room = [0u8; OUTPUT];
    let n = read_full(&mut rt.stdin(), &mut text)?;
    let answer = verdict::judge(&text[..n], &mut room);
    let shown = verdict::show(&mut room, answer);
    rt.write_all(room.get(..shown).unwrap_or_default())
}
