// Where each thing lies in the judge's memory, in words of 32 bits; specs/Layout.antt says the same.
use units::limits;

// How many rows, recorded reads and verdicts there are.
pub const ROWS: usize = 0;

pub const READS: usize = 1;

pub const VERDICTS: usize = 2;
// The rows of the transactions started: a region for each field, a word for each transaction.
pub const NAMES: usize = 3;

pub const STARTS: usize = NAMES + limits::TRANSACTIONS;

pub const ENDS: usize = STARTS + limits::TRANSACTIONS;

// The word of the keys written, in two halves: the keys below 32, and the others.
pub const LOWS: usize = ENDS + limits::TRANSACTIONS;

pub const HIGHS: usize = LOWS + limits::TRANSACTIONS;

pub const K1S: usize = HIGHS + limits::TRANSACTIONS;

pub const K2S: usize = K1S + limits::TRANSACTIONS;

pub const K3S: usize = K2S + limits::TRANSACTIONS;

pub const LASTS: usize = K3S + limits::TRANSACTIONS;
// The recorded reads: a word for each line.
pub const SEEN_KEYS: usize = LASTS + limits::TRANSACTIONS;

pub const SEEN_LINES: usize = SEEN_KEYS + limits::LINES;

pub const SEEN_BEFORES: usize = SEEN_LINES + limits::LINES;
// The verdicts, in order of commit lines: whose, and which.
pub const JUDGED_NAMES: usize = SEEN_BEFORES + limits::LINES;

pub const JUDGED_CODES: usize = JUDGED_NAMES + limits::TRANSACTIONS;

pub const WORDS: usize = JUDGED_CODES + limits::TRANSACTIONS;
