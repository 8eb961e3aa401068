// The log of committed versions in the master's memory: the newest version of a key, and a commit's own appended.
#![tactic(auto)]

ghost use Rattle.std.specs.Prelude.{◌≡◌, ℕ, ◌<◌, Bool};
ghost use Rattle.transaction.specs.Transaction.{writes_of};
ghost use Rattle.model.specs.Log.{version_of, newest, look_up, made_at};
ghost use Rattle.memory.specs.Memory.{log_of, entry_at};
ghost use Rattle.words.specs.Installed.{appended, installed};
ghost use Rattle.memory.specs.Tests.{Says};
ghost use Rattle.versions.specs.Last.{last_of};
ghost use Rattle.versions.specs.Batch.{batch_of, item_of};

use counts::{count_versions, length_of};
use memory::{KEYS, LENGTH, ORDINALS, STAMPS, VALUES, WORDS, byte_of, value_of, word_of};
use transaction::{Transaction, Write};
use units::{Batch, Item, Ordinal, Stamp, Version, limits};

// The newest version of a key; the start version where the log has none.
pub fn newest(memory: &[u32; WORDS], key: u32) -> Version
    ensures { result ≡ newest (log_of memory.now) key }
{
    last_where(memory, |k, _| k == key).unwrap_or(Version::start())
}

// The last version of the log of whose key and ordinal a test holds.
fn last_where<F: Fn(u32, u32) -> bool>(memory: &[u32; WORDS], test: F) -> Option<Version>
    requires { F.IsAlwaysCallable test }
    ensures { (p : ℕ → ℕ → Bool) → Says (λ k o r. F.post test k o r) p → result ≡ last_of p (log_of memory.now) }
{
    for i in (0..length_of(memory)).rev() {
        if test(memory[KEYS + i], memory[ORDINALS + i]) {
            return Some(version_at(memory, i));
        }
    }
    None
}

// The version that stands at a place.
fn version_at(memory: &[u32; WORDS], i: usize) -> Version
    requires { i < 4096 }
    ensures { result ≡ version_of (entry_at memory.now i) }
{
    Version {
        ordinal: Ordinal(memory[ORDINALS + i]),
        stamp: Stamp(memory[STAMPS + i]),
        value: value_of(memory[VALUES + i]),
    }
}

// Appends the transaction's written keys in the order of first writing, all with the stamp, each with its key's next
// ordinal. What would lie past the limit is dropped.
pub fn install(memory: &mut [u32; WORDS], stamp: Stamp, t: Transaction)
    ensures { memory.new ≡ installed memory.old stamp.0 (writes_of t) }
{
    for w in t.writes() {
        append(memory, stamp, *w);
    }
}

// One version more, where there is room.
fn append(memory: &mut [u32; WORDS], stamp: Stamp, w: Write)
    ensures { memory.new ≡ appended memory.old stamp.0 w }
{
    let at = length_of(memory);
    if at < limits::LOG {
        let ordinal = count_versions(memory, w.key) + 1;
        memory[KEYS + at] = w.key;
        memory[ORDINALS + at] = ordinal;
        memory[STAMPS + at] = stamp.0;
        memory[VALUES + at] = word_of(w.value);
        memory[LENGTH] = (at + 1) as u32;
    }
}

// The version of a key that has an ordinal; 0 is the start version's, which every key has.
pub fn look_up(memory: &[u32; WORDS], key: u32, ordinal: Ordinal) -> Option<Version>
    ensures { result ≡ look_up (log_of memory.now) key ordinal.0 }
{
    if ordinal.0 == 0 {
        return Some(Version::start());
    }
    last_where(memory, |k, o| k == key && o == ordinal.0)
}

// The versions that the commit at a stamp made, in log order, at most the first sixteen.
pub fn made_at(memory: &[u32; WORDS], stamp: Stamp) -> Batch
    ensures { result ≡ batch_of (made_at (log_of memory.now) stamp.0) }
{
    let mut batch = Batch::empty();
    for i in 0..length_of(memory) {
        if memory[STAMPS + i] == stamp.0 {
            batch = batch.add(item_at(memory, i));
        }
    }
    batch
}

// The version that stands at a place, as a message carries it.
fn item_at(memory: &[u32; WORDS], i: usize) -> Item
    requires { i < 4096 }
    ensures { result ≡ item_of (entry_at memory.now i) }
{
    Item {
        key: byte_of(memory[KEYS + i]),
        ordinal: Ordinal(memory[ORDINALS + i]),
        value: value_of(memory[VALUES + i]),
    }
}
