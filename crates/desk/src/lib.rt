// The desk of the master's memory: open, start, write, tune and abort. Each call decides first, looking only, and then changes.
#![tactic(auto)]

ghost use Rattle.std.specs.Prelude.{◌+◌, ◌≡◌, ℤ, set};
ghost use Rattle.transaction.specs.Transaction.{fresh, tuned, written};
ghost use Rattle.model.specs.State.{place_of, free_place};
ghost use Rattle.model.specs.Step.{step};
ghost use Rattle.model.specs.Call.{Start, Write, Tune, Abort};
ghost use Rattle.memory.specs.Memory.{places_of, state_of, loaded, stored};
ghost use Rattle.words.specs.After.{closed, cleared, opened_words, after};
ghost use Rattle.desk.specs.Desk.{start_reply, done_reply};

use memory::{CLOCK, LENGTH, LIVE, WORDS, base_of, load, store};
use places::{free_place, place_of};
use transaction::Transaction;
use units::{Bounds, Refusal, Stamp, limits};

// What a call would answer, and the place that it looked for: the first free one, or that of the open transaction of a name.
#[derive(Clone, Copy)]
pub struct Decided<T, E> {
    pub answer: Result<T, E>,
    pub place: usize,
}

// A master newly opened over any words.
pub fn open(memory: &mut [u32; WORDS], clock: Stamp)
    ensures { memory.new ≡ opened_words memory.old clock.0 }
{
    clear(memory);
    memory[CLOCK] = clock.0;
    memory[LENGTH] = 0;
}

// Every place holds a transaction that has ended.
#[tactic(auto, using(crate::proofs::Laws::clear_step), unfolding(words::specs::After::cleared))]
fn clear(memory: &mut [u32; WORDS])
    ensures { memory.new ≡ cleared memory.old 32 }
{
    for i in 0..limits::DESK {
        store(memory, i, Transaction::fresh(Stamp(0)).end());
    }
}

#[tactic(auto, using(crate::proofs::Laws::decided))]
pub fn decide_start(memory: &[u32; WORDS]) -> Decided<Stamp, Refusal>
    ensures reply { start_reply result.answer ≡ (step (state_of memory.now) Start).reply }
    ensures place { result.place ≡ free_place (places_of memory.now) }
{
    let place = free_place(memory);
    if limits::DESK <= place {
        return refuse(place, Refusal::DeskFull);
    }
    let next = memory[CLOCK].checked_add(1);
    let answer = next.map(Stamp).ok_or(Refusal::ClockSpent);
    Decided { answer, place }
}

pub fn change_start(memory: &mut [u32; WORDS], place: usize, name: Stamp)
    ensures { memory.new ≡ set (stored memory.old place (fresh name.0)) 0 name.0 }
{
    store(memory, place, Transaction::fresh(name));
    memory[CLOCK] = name.0;
}

#[tactic(auto, using(crate::proofs::Laws::done_so))]
pub fn start(memory: &mut [u32; WORDS]) -> Result<Stamp, Refusal>
    ensures reply { start_reply result ≡ (step (state_of memory.old) Start).reply }
    ensures memory { memory.new ≡ after memory.old Start }
{
    let d = decide_start(memory);
    let name = d.answer?;
    change_start(memory, d.place, name);
    Ok(name)
}

#[tactic(auto, using(crate::proofs::Laws::decided))]
pub fn decide_write(memory: &[u32; WORDS], name: Stamp, key: u32) -> Decided<(), Refusal>
    ensures reply { (v : ℤ) → done_reply result.answer ≡ (step (state_of memory.now) (Write name.0 key v)).reply }
    ensures place { result.place ≡ place_of (places_of memory.now) name.0 }
{
    let place = place_of(memory, name);
    if limits::DESK <= place {
        return refuse(place, Refusal::NoTransaction);
    }
    if limits::LAST_KEY < key {
        return refuse(place, Refusal::NoKey);
    }
    if limits::WRITES <= load(memory, place).wrote_at(key) {
        return refuse(place, Refusal::TransactionFull);
    }
    let answer = Ok(());
    Decided { answer, place }
}

pub fn change_write(memory: &mut [u32; WORDS], place: usize, key: u32, value: i32)
    ensures { memory.new ≡ stored memory.old place (written (loaded memory.old place) key value) }
{
    let t = load(memory, place);
    store(memory, place, t.write(key, value));
}

#[tactic(auto, using(crate::proofs::Laws::done_so))]
pub fn write(memory: &mut [u32; WORDS], name: Stamp, key: u32, value: i32) -> Result<(), Refusal>
    ensures reply { done_reply result ≡ (step (state_of memory.old) (Write name.0 key value)).reply }
    ensures memory { memory.new ≡ after memory.old (Write name.0 key value) }
{
    let d = decide_write(memory, name, key);
    d.answer?;
    change_write(memory, d.place, key, value);
    Ok(())
}

#[tactic(auto, using(crate::proofs::Laws::decided))]
pub fn decide_tune(
    memory: &[u32; WORDS],
    name: Stamp,
    k1: u16,
    k2: u16,
    k3: u16,
) -> Decided<(), Refusal>
    ensures reply { done_reply result.answer ≡ (step (state_of memory.now) (Tune name.0 k1 k2 k3)).reply }
    ensures place { result.place ≡ place_of (places_of memory.now) name.0 }
{
    let place = place_of(memory, name);
    if limits::DESK <= place {
        return refuse(place, Refusal::NoTransaction);
    }
    let answer = Bounds::new(k1, k2, k3).map(|_| ());
    Decided { answer, place }
}

pub fn change_tune(memory: &mut [u32; WORDS], place: usize, bounds: Bounds)
    ensures { memory.new ≡ stored memory.old place (tuned (loaded memory.old place) bounds) }
{
    let t = load(memory, place);
    store(memory, place, t.tune(bounds));
}

#[tactic(auto, using(crate::proofs::Laws::done_so))]
pub fn tune(
    memory: &mut [u32; WORDS],
    name: Stamp,
    k1: u16,
    k2: u16,
    k3: u16,
) -> Result<(), Refusal>
    ensures reply { done_reply result ≡ (step (state_of memory.old) (Tune name.0 k1 k2 k3)).reply }
    ensures memory { memory.new ≡ after memory.old (Tune name.0 k1 k2 k3) }
{
    let d = decide_tune(memory, name, k1, k2, k3);
    d.answer?;
    change_tune(memory, d.place, Bounds { k1, k2, k3 });
    Ok(())
}

#[tactic(auto, using(crate::proofs::Laws::decided))]
pub fn decide_abort(memory: &[u32; WORDS], name: Stamp) -> Decided<(), Refusal>
    ensures reply { done_reply result.answer ≡ (step (state_of memory.now) (Abort name.0)).reply }
    ensures place { result.place ≡ place_of (places_of memory.now) name.0 }
{
    let place = place_of(memory, name);
    if limits::DESK <= place {
        return refuse(place, Refusal::NoTransaction);
    }
    let answer = Ok(());
    Decided { answer, place }
}

// The transaction at a place is open no more: an abort, and what a commit leaves of it.
pub fn change_end(memory: &mut [u32; WORDS], place: usize)
    ensures { memory.new ≡ closed memory.old place }
{
    let b = base_of(place);
    memory[b + LIVE] = 0;
}

#[tactic(auto, using(crate::proofs::Laws::done_so))]
pub fn abort(memory: &mut [u32; WORDS], name: Stamp) -> Result<(), Refusal>
    ensures reply { done_reply result ≡ (step (state_of memory.old) (Abort name.0)).reply }
    ensures memory { memory.new ≡ after memory.old (Abort name.0) }
{
    let d = decide_abort(memory, name);
    d.answer?;
    change_end(memory, d.place);
    Ok(())
}

fn refuse<T>(place: usize, refusal: Refusal) -> Decided<T, Refusal>
    ensures { (result.answer ≡ Err refusal) × (result.place ≡ place) }
{
    Decided {
        answer: Err(refusal),
        place,
    }
}
