// Plays a session: steps from standard input, one a line, and one reply a line on standard output. It holds one master, opened at clock
// 0, and one fresh copy. docs/SESSION.md has the language. No contract can say what a program reads or writes: the calls that a step makes
// carry the promises, and this program only reads words and writes answers.
#![tactic(auto)]

mod reply;
mod step;
mod table;

use arrayvec::ArrayVec;
use memory::WORDS;
use reply::put_refusal;
use std::io::{ErrorKind, Read, Write};
use std::{io, mem};
use step::step_of;
use table::{REPLY, Table};
use texts::Text;

// The longest line that can be a step, with its newline.
const LINE: usize = 401;

const INPUT: usize = 4096;

const OUTPUT: usize = 8192;

// A table, what earlier reads gave of a line that goes on, the room for a message, and the replies that are not written yet.
#[derive(Drop)]
struct Session<'m> {
    table: Table<'m>,
    line: ArrayVec<u8, LINE>,
    room: [u8; REPLY],
    replies: Text<OUTPUT>,
}

impl<'m> Session<'m> {
    fn open(memory: &'m mut [u32; WORDS]) -> Session<'m> {
        Session {
            table: Table::open(memory),
            line: ArrayVec::new(),
            room: [0; REPLY],
            replies: Text::new(),
        }
    }

    // To the input's end. A read that a signal interrupts is none. Before any other error goes up, what is answered goes out. A proved loop has to
    // end, and nothing says that an input does: it counts its reads from a number that no run uses up.
    fn play(&mut self, rt: &impl Print, from: &mut impl Read) -> io::Result<()> {
        let mut input = [0u8; INPUT];
        for _ in 0..u64::MAX {
            match from.read(&mut input) {
                Ok(0) => break,
                Ok(n) => self.hear(rt, &input[..n])?,
                Err(e) => {
                    if e.kind() != ErrorKind::Interrupted {
                        self.write_replies(rt)?;
                        return Err(e);
                    }
                }
            }
        }
        self.write_replies(rt)
    }

    // A line that stands whole in one read is played where it stands. A line that is too long loses what does not go in, and its newline with that.
    fn hear(&mut self, rt: &impl Print, input: &[u8]) -> io::Result<()> {
        for part in input.split_inclusive(|b| *b == b'\n') {
            if !part.ends_with(b"\n") {
                self.line.write(part)?;
            } else if self.line.is_empty() {
                self.play_line(rt, &part[..part.len().min(LINE)])?;
            } else {
                self.line.write(part)?;
                let line = mem::take(&mut self.line);
                self.play_line(rt, line.as_slice())?;
            }
        }
        Ok(())
    }

    fn play_line(&mut self, rt: &impl Print, line: &[u8]) -> io::Result<()> {
        if OUTPUT - REPLY <= self.replies.bytes().len() {
            self.write_replies(rt)?;
        }
        self.answer(line).ok_or(ErrorKind::WriteZero)?;
        Ok(())
    }

    // Not inlined: else play_line is not, and its result, as large as an error, is stored and loaded for each line.
    #[inline(never)]
    fn answer(&mut self, line: &[u8]) -> Option<()> {
        let Some(step) = step_of(line) else {
            return self.replies.put(b"unknown\n");
        };
        match self.table.play(step, &mut self.room) {
            Ok(reply) => reply.put(&mut self.replies),
            Err(refusal) => put_refusal(&mut self.replies, refusal),
        }
    }

    fn write_replies(&mut self, rt: &impl Print) -> io::Result<()> {
        rt.write_all(self.replies.bytes())?;
        self.replies = Text::new();
        Ok(())
    }
}

fn main(rt: HostRuntime) -> io::Result<()> {
    let mut memory = [0; WORDS];
    Session::open(&mut memory).play(&rt, &mut rt.stdin())
}
