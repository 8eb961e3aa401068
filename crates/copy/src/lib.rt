// A hall's copy: the newest version it has heard of, for each key, whatever the order in which messages arrive.
#![tactic(auto)]

ghost use Rattle.std.specs.Prelude.{◌≡◌, ltb};
ghost use Rattle.units.specs.Batch.{items_of};
ghost use Rattle.copy.specs.Copy.{held_reply, take_step, fresh_copy, read_of, ordinals_of, take_item, take_items, take_line};

use message::{Message, read_message};
use units::{Item, Ordinal, Refusal, Stamp, Version, limits};

// The version held for each key.
#[derive(Clone, Copy)]
pub struct Copy {
    pub versions: [Version; limits::KEYS],
}

impl Copy {
    // A fresh copy has the start versions.
    pub fn fresh() -> Copy
        ensures { result ≡ fresh_copy }
    {
        Copy {
            versions: [Version::start(); limits::KEYS],
        }
    }

    #[tactic(auto, unfolding(crate::specs::Copy::read_of))]
    pub fn read(self, key: u32) -> Result<Version, Refusal>
        ensures { held_reply result ≡ read_of self key }
    {
        if limits::LAST_KEY < key {
            return Err(Refusal::NoKey);
        }
        Ok(self.versions[key as usize])
    }

    // What the comparison takes: the ordinal of each key.
    pub fn ordinals(self) -> [Ordinal; limits::KEYS]
        ensures { result ≡ ordinals_of self }
    {
        let mut all = [Ordinal(0); limits::KEYS];
        for k in 0..limits::KEYS {
            all[k] = self.versions[k].ordinal;
        }
        all
    }

    // A line that is not of the form leaves the copy as it was.
    pub fn take(&mut self, line: &[u8]) -> Result<(), Refusal>
        ensures { take_step result self.new ≡ take_line self.old line.now }
    {
        let Message { stamp, batch } = read_message(line).ok_or(Refusal::NotAMessage)?;
        self.take_items(stamp, batch.items());
        Ok(())
    }

    fn take_items(&mut self, stamp: Stamp, items: &[Item])
        ensures { self.new ≡ take_items self.old stamp.0 items.now }
    {
        for item in items {
            self.take_item(stamp, *item);
        }
    }

    // A key past the last changes nothing.
    fn take_item(&mut self, stamp: Stamp, item: Item)
        ensures { self.new ≡ take_item self.old stamp.0 item }
    {
        let k = usize::from(item.key);
        if k < limits::KEYS && newer(item, self.versions[k]) {
            self.versions[k] = Version {
                ordinal: item.ordinal,
                stamp,
                value: item.value,
            };
        }
    }
}

// The order of arrival plays no part, and an equal ordinal is the same version.
fn newer(item: Item, own: Version) -> bool
    ensures { result ≡ ltb own.ordinal.0 item.ordinal.0 }
{
    own.ordinal < item.ordinal
}
