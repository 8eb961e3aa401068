// Reading a message line: whole, or not of the form.
ghost use Rattle.std.specs.Prelude.{◌≡◌, []};
ghost use Rattle.lists.specs.Lists.{any};
ghost use Rattle.message.specs.Read.{is_of_key, distinct, item_at, ends_at, items_at, read_line, message_of, read_message_reply, reading_reply};

use crate::LETTER;
use decimal::{NEWLINE, byte_at, natural_behind_tab, signed_behind_tab};
use units::{Batch, Item, Ordinal, Stamp, limits};

// What a line says: a commit's stamp and its versions.
#[derive(Clone, Copy)]
pub struct Message {
    pub stamp: Stamp,
    pub batch: Batch,
}

pub fn read_message(line: &[u8]) -> Option<Message>
    ensures reply { read_message_reply result ≡ reading_reply (read_line line.now) }
    ensures places { result ≡ message_of (read_line line.now) }
{
    if byte_at(line, 0) != LETTER {
        return None;
    }
    let (stamp, e) = natural_behind_tab(line, 1, 1, u64::from(limits::LAST_STAMP))?;
    items_from(line, Stamp(stamp as u32), e)
}

// The versions from a place on, to the end of the line; the limit is the message's, and a key stands once.
fn items_from(line: &[u8], stamp: Stamp, from: usize) -> Option<Message>
    ensures { result ≡ message_of (items_at stamp.0 16 line.now from []) }
{
    let mut batch = Batch::empty();
    let mut at = from;
    for _ in 0..limits::WRITES {
        let (item, e) = item_at(line, at)?;
        batch = batch.add(item);
        if ends(line, e) {
            return all_distinct(batch.items()).then_some(Message { stamp, batch });
        }
        at = e;
    }
    None
}

// Key, ordinal and value, each behind a tab, and the place just behind them.
fn item_at(line: &[u8], at: usize) -> Option<(Item, usize)>
    ensures { result ≡ item_at line.now at }
{
    let (key, a) = natural_behind_tab(line, at, 0, u64::from(limits::LAST_KEY))?;
    let (ordinal, b) = natural_behind_tab(line, a, 1, limits::LOG as u64)?;
    let (value, e) = signed_behind_tab(line, b)?;
    let item = Item {
        key: key as u8,
        ordinal: Ordinal(ordinal as u32),
        value,
    };
    Some((item, e))
}

// Whether the newline stands at a place, and nothing behind it.
#[tactic(auto, using(decimal::proofs::Steps::byte_within), unfolding(crate::specs::Read::ends_at))]
fn ends(line: &[u8], at: usize) -> bool
    ensures { result ≡ ends_at line.now at }
{
    byte_at(line, at) == NEWLINE && at + 1 == line.len()
}

// "No key twice."
fn all_distinct(items: &[Item]) -> bool
    ensures { result ≡ distinct items.now }
{
    for (i, item) in items.iter().enumerate() {
        if has_key(&items[i + 1..], item.key) {
            return false;
        }
    }
    true
}

// Whether one of the versions is of a key.
fn has_key(items: &[Item], key: u8) -> bool
    ensures { result ≡ any (is_of_key key) items.now }
{
    items.iter().any(|item| item.key == key)
}
