// Judges several histories at the edges of document 01's refusals, each in a room of its own: a head of 16 bytes (the bytes of room, a
// space, the bytes of history, then spaces up to a newline), then the history, and so on to the end of the input.
#![tactic(auto)]

use intake::read_full;
use std::io;
use std::io::Read;
use units::limits;

const HEAD: usize = 16;

const INPUT: usize = limits::HISTORY + 1;

const OUTPUT: usize = 8192;

// How many histories a run may have.
const MOST: usize = 100;

// What a head says: how much of the room is lent, and how long the history is.
#[derive(Clone, Copy)]
struct Edge {
    lent: usize,
    length: usize,
}

fn edge_of(head: &[u8]) -> Option<Edge> {
    let (lent, at) = decimal::natural_at(head, 0, 0, OUTPUT as u64)?;
    let (length, _) = decimal::natural_at(head, at.saturating_add(1), 0, INPUT as u64)?;
    Some(Edge {
        lent: lent as usize,
        length: length as usize,
    })
}

// The rooms for a history and for what is printed of it.
#[derive(Drop)]
struct Rooms {
    text: [u8; INPUT],
    output: [u8; OUTPUT],
}

impl Rooms {
    // Up to the first head that is none.
    fn judge_all(&mut self, rt: &impl Print, input: &mut impl Read) -> io::Result<()> {
        let mut head = [0u8; HEAD];
        for _ in 0..MOST {
            if read_full(input, &mut head)? < HEAD {
                break;
            }
            let Some(edge) = edge_of(&head) else {
                break;
            };
            self.judge_next(rt, input, edge)?;
        }
        Ok(())
    }

    // The refusal's line goes to the whole room, which has space for it also where the lent part has none.
    fn judge_next(&mut self, rt: &impl Print, input: &mut impl Read, edge: Edge) -> io::Result<()> {
        let text = &mut self.text[..];
        let output = &mut self.output[..];
        let n = read_full(input, &mut text[..edge.length.min(INPUT)])?;
        let answer = verdict::judge(&text[..n], &mut output[..edge.lent.min(OUTPUT)]);
        let shown = verdict::show(output, answer);
        rt.write_all(output.get(..shown).unwrap_or_default())
    }
}

fn main(rt: HostRuntime) -> io::Result<()> {
    let mut rooms = Rooms {
        text: [0; INPUT],
        output: [0; OUTPUT],
    };
    rooms.judge_all(&rt, &mut rt.stdin())
}
