// The comparison of a copy with the master: from the copy's 64 ordinals to a word with a one for each key that is behind, how many
// keys that is, and the lowest of them.
#![tactic(auto)]

ghost use Rattle.std.specs.Prelude.{◌≡◌};
ghost use Rattle.memory.specs.Memory.{log_of};
ghost use Rattle.comparison.specs.Comparison.{is_ahead, is_behind, some_key, word_of, compared, compare_reply, newest_ordinal};

use memory::WORDS;
use units::{Ordinal, Refusal, limits};

// The keys that are behind: a one for each in the word, how many they are, and the lowest of them; 64 if none.
#[derive(Clone, Copy, PartialEq, Eq)]
pub struct Behind {
    pub word: u64,
    pub keys: u32,
    pub lowest: u32,
}

// The copy's ordinals are `held`. 11 where some of them is above the master's.
#[tactic(auto, unfolding(crate::specs::Comparison::compared))]
pub fn compare(memory: &[u32; WORDS], held: [Ordinal; limits::KEYS]) -> Result<Behind, Refusal>
    ensures { compare_reply result ≡ compared (log_of memory.now) held }
{
    if some_ahead(memory, held) {
        return Err(Refusal::OrdinalAhead);
    }
    let word = keys_behind(memory, held);
    Ok(Behind {
        word,
        keys: word.count_ones(),
        lowest: word.trailing_zeros(),
    })
}

fn some_ahead(memory: &[u32; WORDS], held: [Ordinal; limits::KEYS]) -> bool
    ensures { result ≡ some_key (is_ahead (log_of memory.now) held) 64 }
{
    (0..64u32).any(|key| newest_ordinal(memory, key) < held[key as usize].0)
}

fn keys_behind(memory: &[u32; WORDS], held: [Ordinal; limits::KEYS]) -> u64
    ensures { result ≡ word_of (is_behind (log_of memory.now) held) 64 }
{
    let mut word = 0;
    for key in 0..64u32 {
        if held[key as usize].0 < newest_ordinal(memory, key) {
            word += 1 << key;
        }
    }
    word
}

fn newest_ordinal(memory: &[u32; WORDS], key: u32) -> u32
    ensures { result ≡ newest_ordinal (log_of memory.now) key }
{
    versions::newest(memory, key).ordinal.0
}
