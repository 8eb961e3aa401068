// Plays one transaction over and over on one lent memory: start, two reads, a write, commit. Each line of standard input is a run: how many
// transactions, and after how many the master is opened anew, with a tab between. Each line of standard output is what a run gave: how many
// were granted, and a sum over all answers. bench/transactions.py measures it.
#![tactic(auto)]

use intake::read_full;
use master::{NotCommitted, Reading};
use memory::WORDS;
use std::io;
use units::{Refusal, Stamp};

const INPUT: usize = 1024;

// The largest number of a run.
const MOST: u64 = 1000000000;

// What the sum is taken by before the next answer, so that no sum overflows.
const MODULUS: u64 = 4294967296;

fn main(rt: HostRuntime) -> io::Result<()> {
    let mut memory = [0u32; WORDS];
    let mut input = [0u8; INPUT];
    let n = read_full(&mut rt.stdin(), &mut input)?;
    for line in input[..n].split_inclusive(|b| *b == b'\n') {
        if let Some(line) = line.strip_suffix(b"\n") {
            play_line(&rt, &mut memory, line)?;
        }
    }
    Ok(())
}

fn play_line(rt: &impl Print, memory: &mut [u32; WORDS], line: &[u8]) -> io::Result<()> {
    let Some((count, every)) = run_of(line) else {
        return rt.write_all(b"unknown\n");
    };
    let mut run = Run {
        memory,
        granted: 0,
        sum: 0,
    };
    run.play(count, every);
    println!(rt; "{} {}", run.granted, run.sum)
}

// How many transactions, and after how many the master is opened anew.
fn run_of(line: &[u8]) -> Option<(u32, u32)> {
    let (count, e) = decimal::natural_at(line, 0, 0, MOST)?;
    let (every, end) = decimal::natural_behind_tab(line, e, 1, MOST)?;
    if end != line.len() {
        return None;
    }
    Some((u32::try_from(count).ok()?, u32::try_from(every).ok()?))
}

// The memory that a run is played on, how many of its transactions were granted, and the sum over its answers.
#[derive(Drop)]
struct Run<'a> {
    memory: &'a mut [u32; WORDS],
    granted: u32,
    sum: u64,
}

impl Run<'_> {
    fn play(&mut self, count: u32, every: u32) {
        let mut reopen = 0;
        for i in 0..count {
            if i == reopen {
                desk::open(self.memory, Stamp(0));
                reopen = i.wrapping_add(every);
            }
            self.transact(i);
        }
    }

    // The transaction of number i.
    fn transact(&mut self, i: u32) {
        match desk::start(self.memory) {
            Ok(name) => {
                self.hear(name.0);
                self.work(i, name);
            }
            Err(refusal) => self.refuse(refusal),
        }
    }

    fn work(&mut self, i: u32, name: Stamp) {
        self.read(name, i % 64);
        self.read(name, i % 64 * 7 % 64);
        self.write(name, i % 64 * 5 % 64, !((i % 65536) as i32));
        self.commit(name);
    }

    fn read(&mut self, name: Stamp, key: u32) {
        match master::read(self.memory, name, key) {
            Ok(Reading::Version(v)) => {
                self.hear(v.ordinal.0);
                self.hear(v.stamp.0);
                self.hear(v.value.cast_unsigned());
            }
            Ok(Reading::Own(v)) => self.hear(v.cast_unsigned()),
            Err(refusal) => self.refuse(refusal),
        }
    }

    fn write(&mut self, name: Stamp, key: u32, value: i32) {
        if let Err(refusal) = desk::write(self.memory, name, key, value) {
            self.refuse(refusal);
        }
    }

    // One transaction at a time breaks no rule: an abort would leave its mark in the number granted.
    fn commit(&mut self, name: Stamp) {
        match master::commit(self.memory, name) {
            Ok(stamp) => {
                self.hear(stamp.0);
                self.granted = self.granted.wrapping_add(1);
            }
            Err(NotCommitted::Aborted(_)) => {}
            Err(NotCommitted::Refused(refusal)) => self.refuse(refusal),
        }
    }

    fn refuse(&mut self, refusal: Refusal) {
        self.hear(u32::from(refusal.number()));
    }

    fn hear(&mut self, answer: u32) {
        self.sum = self.sum % MODULUS * 31 + u64::from(answer);
    }
}
