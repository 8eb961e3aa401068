// The things that document 01 counts: stamps, ordinals, versions, bound triples, its limits, its rules and its refusals.
#![tactic(auto)]

ghost use Rattle.std.specs.Prelude.{◌≡◌, []};
ghost use Rattle.units.specs.Batch.{batch_of, items_of, added};
ghost use Rattle.units.specs.Bounds.{bounded, triple_reply, snapshot, default, calibration};
ghost use Rattle.units.specs.Version.{start_version};

pub mod limits;
mod refusal;
mod rule;

pub use refusal::Refusal;
pub use rule::Rule;

// A moment of the master's one clock; 0 is the load.
#[derive(Clone, Copy, PartialEq, Eq, PartialOrd, Ord)]
pub struct Stamp(pub u32);

// The number of a version among those of its key; 0 is the start version.
#[derive(Clone, Copy, PartialEq, Eq, PartialOrd, Ord)]
pub struct Ordinal(pub u32);

// A version of a key, as a read answers it.
#[derive(Clone, Copy, PartialEq, Eq)]
pub struct Version {
    pub ordinal: Ordinal,
    pub stamp: Stamp,
    pub value: i32,
}

impl Version {
    // "0 for the start version (value 0, stamp 0)".
    pub fn start() -> Version
        ensures { result ≡ start_version }
    {
        Version {
            ordinal: Ordinal(0),
            stamp: Stamp(0),
            value: 0,
        }
    }
}

// A version as a message carries it: the stamp is the message's own.
#[derive(Clone, Copy, PartialEq, Eq)]
pub struct Item {
    pub key: u8,
    pub ordinal: Ordinal,
    pub value: i32,
}

// The versions of one commit: the first `count` items, in log order; the places behind them mean nothing.
#[derive(Clone, Copy)]
pub struct Batch {
    pub items: [Item; limits::WRITES],
    pub count: usize,
}

impl Batch {
    pub fn empty() -> Batch
        ensures { result ≡ batch_of [] }
    {
        let item = Item {
            key: 0,
            ordinal: Ordinal(0),
            value: 0,
        };
        Batch {
            items: [item; limits::WRITES],
            count: 0,
        }
    }

    // A seventeenth item is not added.
    pub fn add(mut self, item: Item) -> Batch
        ensures { result ≡ added self item }
    {
        let n = self.count;
        if n < limits::WRITES {
            self.items[n] = item;
            self.count = n + 1;
        }
        self
    }

    // The items that count; a count past the limit counts as the limit.
    pub fn items(&self) -> &[Item]
        ensures { result.now ≡ items_of self.now }
    {
        &self.items[..self.count.min(limits::WRITES)]
    }
}

// A bound triple: how stale a read may be, how far past the start, how far apart two reads.
#[derive(Clone, Copy, PartialEq, Eq)]
pub struct Bounds {
    pub k1: u16,
    pub k2: u16,
    pub k3: u16,
}

impl Bounds {
    pub const SNAPSHOT: Bounds = Bounds {
        k1: 1,
        k2: 0,
        k3: limits::ANY,
    };

    // For the halls, whose copies are often one version late: what a started transaction has until it is tuned.
    pub const DEFAULT: Bounds = Bounds {
        k1: 2,
        k2: 0,
        k3: 1,
    };

    // What calibration tunes to, and what old files mean by a transaction without a `k` line.
    pub const CALIBRATION: Bounds = Bounds {
        k1: 1,
        k2: 0,
        k3: 0,
    };

    // The constants by a contract, so that none can say another triple.
    pub fn snapshot() -> Bounds
        ensures { result ≡ snapshot }
    {
        Bounds::SNAPSHOT
    }

    pub fn standard() -> Bounds
        ensures { result ≡ default }
    {
        Bounds::DEFAULT
    }

    pub fn calibration() -> Bounds
        ensures { result ≡ calibration }
    {
        Bounds::CALIBRATION
    }

    // k1 is at least 1.
    pub fn new(k1: u16, k2: u16, k3: u16) -> Result<Bounds, Refusal>
        ensures { triple_reply result ≡ bounded k1 k2 k3 }
    {
        if k1 == 0 {
            return Err(Refusal::NoSuchBoundOrPlace);
        }
        Ok(Bounds { k1, k2, k3 })
    }
}
