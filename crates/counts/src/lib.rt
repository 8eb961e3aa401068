// What document 01 counts in the log, over the master's memory.
#![tactic(auto)]

ghost use Rattle.std.specs.Prelude.{◌≡◌, ℕ, Bool};
ghost use Rattle.model.specs.Log.{up_to, between, changed_after, versions};
ghost use Rattle.memory.specs.Tests.{Says};
ghost use Rattle.memory.specs.Memory.{log_of, length_of};
ghost use Rattle.counts.specs.Where.{counted};

use memory::{KEYS, LENGTH, STAMPS, WORDS};
use units::{Stamp, limits};

pub fn length_of(memory: &[u32; WORDS]) -> usize
    ensures { result ≡ length_of memory.now }
{
    (memory[LENGTH] as usize).min(limits::LOG)
}

// How many versions of the log a test of key and stamp holds of. Tests are put together by `&`, with no branch between them, so that the walk
// stays a plain count.
fn count_where<F: Fn(u32, u32) -> bool>(memory: &[u32; WORDS], test: F) -> u32
    requires { F.IsAlwaysCallable test }
    ensures { (p : ℕ → ℕ → Bool) → Says (λ k s r. F.post test k s r) p → result ≡ counted p (log_of memory.now) }
{
    let mut n = 0;
    for i in 0..length_of(memory) {
        if test(memory[KEYS + i], memory[STAMPS + i]) {
            n += 1;
        }
    }
    n
}

// O_x(t): the versions of a key with a stamp at or before `until`.
pub fn count_up_to(memory: &[u32; WORDS], key: u32, until: Stamp) -> u32
    ensures { result ≡ up_to (log_of memory.now) key until.0 }
{
    count_where(memory, |k, s| (k == key) & (s <= until.0))
}

// The versions of a key strictly after one stamp and strictly before another; of stamps not in order the log is not walked.
pub fn count_between(memory: &[u32; WORDS], key: u32, after: Stamp, before: Stamp) -> u32
    ensures { result ≡ between (log_of memory.now) key after.0 before.0 }
{
    if before.0 <= after.0 {
        return 0;
    }
    count_where(memory, |k, s| (k == key) & (after.0 < s) & (s < before.0))
}

// How many versions a key has.
pub fn count_versions(memory: &[u32; WORDS], key: u32) -> u32
    ensures { result ≡ versions (log_of memory.now) key }
{
    count_where(memory, |k, _| k == key)
}

// Whether some version of a key has a stamp above `since`: then it has more versions than up to there.
pub fn changed_after(memory: &[u32; WORDS], key: u32, since: Stamp) -> bool
    ensures { result ≡ changed_after (log_of memory.now) key since.0 }
{
    count_up_to(memory, key, since) < count_versions(memory, key)
}
