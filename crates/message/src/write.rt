// Writing a message line: whole, or not at all.
ghost use Rattle.std.specs.Prelude.{◌+◌, ◌<◌, ◌≤◌, ◌≡◌, [], ◌∷◌, ◌++◌, pos, length};
ghost use Rattle.decimal.specs.Text.{field};
ghost use Rattle.decimal.specs.Write.{put};
ghost use Rattle.message.specs.Line.{item_text, message_text, items_of};
ghost use Rattle.message.specs.Write.{message_reply, text_reply};

use crate::LETTER;
use decimal::{NEWLINE, TAB, put_text};
use texts::Text;
use units::{Batch, Item, Refusal, Stamp};

// Room for the line of any batch, also of one that no commit made: 1 + 11 + 16 * 27 + 1 bytes.
const LONGEST: usize = 445;

// The length of the line, or NoRoom where the lent room is shorter.
pub fn write_message(room: &mut [u8], stamp: Stamp, batch: Batch) -> Result<usize, Refusal>
    ensures reply { message_reply result ≡ text_reply room.old (message_text stamp.0 (items_of batch)) }
    ensures buffer { room.new ≡ put room.old 0 (message_text stamp.0 (items_of batch)) }
{
    let line = line_of(stamp, batch.items());
    put_text(room, 0, line.bytes()).ok_or(Refusal::NoRoom)
}

// The whole line.
fn line_of(stamp: Stamp, items: &[Item]) -> Text<LONGEST>
    requires { length items.now ≤ 16 }
    ensures { result ≡ message_text stamp.0 items.now }
{
    let mut line = Text::new();
    put_byte(&mut line, LETTER);
    put_field(&mut line, u64::from(stamp.0));
    for item in items {
        put_item(&mut line, *item);
    }
    put_byte(&mut line, NEWLINE);
    line
}

fn put_item(line: &mut Text<LONGEST>, item: Item)
    requires { length line.old + 27 ≤ 445 }
    ensures text { line.new ≡ line.old ++ item_text item }
    ensures long { length line.new ≤ length line.old + 27 }
{
    put_field(line, u64::from(item.key));
    put_field(line, u64::from(item.ordinal.0));
    put_value(line, item.value);
}

// A tab and a number that is not below zero.
fn put_field(line: &mut Text<LONGEST>, n: u64)
    requires { length line.old + length (field (pos n)) ≤ 445 }
    ensures { line.new ≡ line.old ++ field (pos n) }
{
    put_byte(line, TAB);
    line.put_natural(n).unwrap();
}

// A tab and a value.
fn put_value(line: &mut Text<LONGEST>, n: i32)
    requires { length line.old + length (field n) ≤ 445 }
    ensures { line.new ≡ line.old ++ field n }
{
    put_byte(line, TAB);
    line.put_signed(n).unwrap();
}

#[tactic(auto, using(texts::proofs::Growing::fitted_room, texts::proofs::Growing::grown_room))]
fn put_byte(line: &mut Text<LONGEST>, b: u8)
    requires { length line.old < 445 }
    ensures { line.new ≡ line.old ++ b ∷ [] }
{
    line.put(&[b]).unwrap();
}
