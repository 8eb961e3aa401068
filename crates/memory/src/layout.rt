// Where each thing lies in the master's memory, in words of 32 bits; specs/Layout.antt says the same.
use units::limits;

// The clock, and how many versions the log has.
pub const CLOCK: usize = 0;

pub const LENGTH: usize = 1;
// The log's four regions: a word for each version.
pub const KEYS: usize = 2;

pub const ORDINALS: usize = KEYS + limits::LOG;

pub const STAMPS: usize = ORDINALS + limits::LOG;

pub const VALUES: usize = STAMPS + limits::LOG;
// The desk: its places one behind the other.
pub const DESK: usize = VALUES + limits::LOG;
// Of a place: the name is its first word, then whether it is open, its bounds, how many reads and how many writes count; then the
// reads, three words each, and the writes, two words each.
pub const LIVE: usize = 1;

pub const K1: usize = 2;

pub const K2: usize = 3;

pub const K3: usize = 4;

pub const RECORDED: usize = 5;

pub const WRITTEN: usize = 6;

pub const READS: usize = 7;

pub const WRITES: usize = READS + 3 * limits::READS;

pub const PLACE: usize = WRITES + 2 * limits::WRITES;

pub const WORDS: usize = DESK + PLACE * limits::DESK;
