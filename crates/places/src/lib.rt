// The places of the desk in the master's memory: where the open transaction of a name stands, and the first that is free.
#![tactic(auto)]

ghost use Rattle.std.specs.Prelude.{◌≡◌, ℕ, Bool};
ghost use Rattle.model.specs.State.{place_of, free_place};
ghost use Rattle.memory.specs.Tests.{Says};
ghost use Rattle.memory.specs.Memory.{places_of};
ghost use Rattle.places.specs.First.{first};

use memory::{LIVE, WORDS, base_of};
use units::{Stamp, limits};

// The place of the open transaction of a name, or how many places there are.
pub fn place_of(memory: &[u32; WORDS], name: Stamp) -> usize
    ensures { result ≡ place_of (places_of memory.now) name.0 }
{
    first_place(memory, |n, live| live && n == name.0)
}

// The first free place, or how many places there are.
pub fn free_place(memory: &[u32; WORDS]) -> usize
    ensures { result ≡ free_place (places_of memory.now) }
{
    first_place(memory, |_, live| !live)
}

// The first place of which a test of the transaction's name, and of whether it is open, holds; or how many places there are.
fn first_place<F: Fn(u32, bool) -> bool>(memory: &[u32; WORDS], test: F) -> usize
    requires { F.IsAlwaysCallable test }
    ensures { (p : ℕ → Bool → Bool) → Says (λ n live r. F.post test n live r) p → result ≡ first p (places_of memory.now) }
{
    for i in 0..limits::DESK {
        let b = base_of(i);
        if test(memory[b], memory[b + LIVE] != 0) {
            return i;
        }
    }
    limits::DESK
}
