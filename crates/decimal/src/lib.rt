// Numbers as decimal text: one reader and one writer for every field, over any range; and the texts that stand around them.
#![tactic(auto)]

mod read;
mod write;

pub use read::{
    Range, byte_at, field_at, natural_at, natural_behind_tab, signed_at, signed_behind_tab,
};
pub use write::{put_byte, put_natural, put_signed, put_text};

// What parts the fields of a line, and ends it.
pub const TAB: u8 = b'\t';

pub const NEWLINE: u8 = b'\n';

const MINUS: u8 = b'-';
