// The limits of document 01, each once.

// Keys are 0 to 63.
pub const KEYS: usize = 64;

pub const LAST_KEY: u32 = 63;
// The last stamp of the clock.
pub const LAST_STAMP: u32 = 4294967295;
// At most 32 transactions are open.
pub const DESK: usize = 32;
// A transaction holds at most 16 recorded reads and 16 different keys written.
pub const READS: usize = 16;

pub const WRITES: usize = 16;
// The log holds at most 4,096 versions besides the start versions.
pub const LOG: usize = 4096;
// The bound that is called "any".
pub const ANY: u16 = 65535;
// A message is at most 333 bytes, of 1 to 16 versions.
pub const MESSAGE: usize = 333;
// The numbers of transactions in a written history are 1 to 4,294,967,295.
pub const LAST_NAME: u32 = 4294967295;
// A written history is at most 65,536 bytes, 4,096 lines and 512 transactions.
pub const HISTORY: usize = 65536;

pub const LINES: usize = 4096;

pub const TRANSACTIONS: usize = 512;
