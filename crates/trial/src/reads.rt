// The reads of one transaction in the judge's memory, from its last one back.
#![tactic(auto)]

ghost use Rattle.std.specs.Prelude.{◌≤◌, ◌≡◌};
ghost use Rattle.std.specs.Iterator.{YieldsFirst, item_count};
ghost use Rattle.records.specs.Ledger.{chain};
ghost use Rattle.book.specs.Book.{seens_in};
ghost use Rattle.trial.specs.Walk.{reads_from};

use book::{SEEN_BEFORES, SEEN_KEYS, SEEN_LINES, WORDS};
use records::Seen;

// The number of the read to come, which is none unless it is one of the first `most`.
#[derive(Drop)]
pub(crate) struct Reads<'a> {
    memory: &'a [u32; WORDS],
    number: u32,
    most: usize,
    ghost in_range: { most ≤ 4096 },
}

impl<'a> Reads<'a> {
    pub(crate) fn new(memory: &'a [u32; WORDS], last: u32) -> Reads<'a>
        ensures { reads_from result.memory.now result.most result.number ≡ chain (seens_in memory.now) last }
    {
        Reads {
            memory,
            number: last,
            most: book::reads(memory),
        }
    }
}

// A read names the one before it; a number that is not below its own ends the walk.
#[tactic(auto, using(crate::proofs::Chain::chain_none, crate::proofs::Chain::chain_past, crate::proofs::Chain::chain_step))]
impl Iterator for Reads<'_> {
    type Item = Seen;

    ghost next_gives = { YieldsFirst (λ s. reads_from s.memory.now s.most s.number) };

    ghost remaining = { item_count (λ s. reads_from s.memory.now s.most s.number) };

    fn next(&mut self) -> Option<Seen> {
        let i = (self.number as usize).checked_sub(1)?;
        if self.most <= i {
            return None;
        }
        let seen = Seen {
            key: self.memory[SEEN_KEYS + i],
            line: self.memory[SEEN_LINES + i],
            before: self.memory[SEEN_BEFORES + i],
        };
        self.number = seen.before;
        self.most = i;
        Some(seen)
    }
}
