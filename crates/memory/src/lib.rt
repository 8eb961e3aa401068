// The master's whole state in one lent array of words: where each thing lies, and how a transaction is loaded and stored.
#![tactic(auto)]

ghost use Rattle.std.specs.Prelude.{List, refl, ℕ, ◌+◌, ◌*◌, ◌≤◌, ◌%◌, not, ◌≡◌, eqb, length, get_or};
ghost use Rattle.std.proofs.lemmas.List.Edits.{sets};
ghost use Rattle.std.specs.Int.{w32};
ghost use mir.Val.{to_z, of_z, bool_byte};
ghost use Rattle.memory.specs.Layout.{word_count};
ghost use Rattle.memory.specs.Memory.{base_of, loaded, stored, mark_at, write_at, tab, words_of_mark, words_of_write, row_words};

use transaction::{Mark, Transaction, Write};
use units::{Bounds, Ordinal, Stamp, limits};

mod layout;

pub use layout::{
    CLOCK, DESK, K1, K2, K3, KEYS, LENGTH, LIVE, ORDINALS, PLACE, READS, RECORDED, STAMPS, VALUES,
    WORDS, WRITES, WRITTEN,
};

// Where a place of the desk begins; past the last, where the last begins.
pub fn base_of(place: usize) -> usize
    ensures { result ≡ base_of place }
{
    DESK + PLACE * place.min(limits::DESK - 1)
}

// Two's complement.
pub fn word_of(v: i32) -> u32
    ensures { result ≡ of_z w32 v }
{
    v.cast_unsigned()
}

pub fn value_of(w: u32) -> i32
    ensures { result ≡ to_z w32 w }
{
    w.cast_signed()
}

fn short_of(w: u32) -> u16
    ensures { result ≡ w % 65536 }
{
    (w % 65536) as u16
}

pub fn byte_of(w: u32) -> u8
    ensures { result ≡ w % 256 }
{
    (w % 256) as u8
}

// What a place of the desk has a row of: a recorded read in three words, a written key in two.
trait Stored: Copy {
    // What stands at a word, and the words that say a value.
    ghost stands: { List ℕ → ℕ → Self };

    ghost words: { Self → List ℕ };

    ghost WIDTH: { ℕ };

    const WIDTH: usize;

    fn load(memory: &[u32; WORDS], at: usize) -> Self
        requires { at + WIDTH ≤ word_count }
        ensures { result ≡ stands memory.now at };

    fn store(&self, memory: &mut [u32; WORDS], at: usize)
        requires { at + WIDTH ≤ word_count }
        ensures { memory.new ≡ sets memory.old at (words self.now) };

    ghost as_many: { (x : Self) → length (words x) ≡ WIDTH };
}

impl Stored for Mark {
    ghost stands = { mark_at };

    ghost words = { words_of_mark };

    ghost WIDTH = { 3 };

    const WIDTH: usize = 3;

    ghost as_many = { λ x. refl };

    fn load(memory: &[u32; WORDS], at: usize) -> Mark {
        Mark {
            key: memory[at],
            ordinal: Ordinal(memory[at + 1]),
            stamp: Stamp(memory[at + 2]),
        }
    }

    #[inline]
    fn store(&self, memory: &mut [u32; WORDS], at: usize) {
        memory[at] = self.key;
        memory[at + 1] = self.ordinal.0;
        memory[at + 2] = self.stamp.0;
    }
}

impl Stored for Write {
    ghost stands = { write_at };

    ghost words = { words_of_write };

    ghost WIDTH = { 2 };

    const WIDTH: usize = 2;

    ghost as_many = { λ x. refl };

    fn load(memory: &[u32; WORDS], at: usize) -> Write {
        Write {
            key: memory[at],
            value: value_of(memory[at + 1]),
        }
    }

    #[inline]
    fn store(&self, memory: &mut [u32; WORDS], at: usize) {
        memory[at] = self.key;
        memory[at + 1] = word_of(self.value);
    }
}

// Fills the row with what stands from a word on.
#[inline]
fn load_row<T: Stored>(memory: &[u32; WORDS], from: usize, row: &mut [T])
    requires { from + T.WIDTH * length row.old ≤ word_count }
    ensures { row.new ≡ tab (λ (i : ℕ). T.stands memory.now (from + T.WIDTH * i)) (length row.old) }
{
    for (i, x) in row.iter_mut().enumerate() {
        *x = T::load(memory, from + T::WIDTH * i);
    }
}

// Lays the row's words down from a word on.
#[inline]
fn store_row<T: Stored>(memory: &mut [u32; WORDS], from: usize, row: &[T])
    requires { from + T.WIDTH * length row.now ≤ word_count }
    ensures { memory.new ≡ sets memory.old from (row_words T.words row.now) }
{
    for (i, x) in row.iter().enumerate() {
        x.store(memory, from + T::WIDTH * i);
    }
}

// The transaction at a place of the desk.
pub fn load(memory: &[u32; WORDS], place: usize) -> Transaction
    ensures { result ≡ loaded memory.now place }
{
    let b = base_of(place);
    let mut t = Transaction::fresh(Stamp(memory[b]));
    t.live = memory[b + LIVE] != 0;
    t.bounds = Bounds {
        k1: short_of(memory[b + K1]),
        k2: short_of(memory[b + K2]),
        k3: short_of(memory[b + K3]),
    };
    load_row(memory, b + READS, &mut t.reads);
    t.recorded = memory[b + RECORDED];
    load_row(memory, b + WRITES, &mut t.writes);
    t.written = memory[b + WRITTEN];
    t
}

#[inline]
pub fn store(memory: &mut [u32; WORDS], place: usize, t: Transaction)
    ensures { memory.new ≡ stored memory.old place t }
{
    let b = base_of(place);
    let bounds = t.bounds;
    memory[b] = t.name.0;
    memory[b + LIVE] = u32::from(t.live);
    memory[b + K1] = u32::from(bounds.k1);
    memory[b + K2] = u32::from(bounds.k2);
    memory[b + K3] = u32::from(bounds.k3);
    memory[b + RECORDED] = t.recorded;
    memory[b + WRITTEN] = t.written;
    store_row(memory, b + READS, &t.reads);
    store_row(memory, b + WRITES, &t.writes);
}
