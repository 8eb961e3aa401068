// The table at which a session is played: the master's lent memory and the hall's copy, and what each step does to them.
use crate::reply::Reply;
use crate::step::Step;
use copy::Copy;
use master::NotCommitted;
use memory::WORDS;
use units::{Refusal, Stamp};

// No reply is longer than a message line.
pub(crate) const REPLY: usize = 512;

#[derive(Drop)]
pub(crate) struct Table<'m> {
    memory: &'m mut [u32; WORDS],
    copy: Copy,
}

impl<'m> Table<'m> {
    pub(crate) fn open(memory: &'m mut [u32; WORDS]) -> Table<'m> {
        desk::open(memory, Stamp(0));
        Table {
            memory,
            copy: Copy::fresh(),
        }
    }

    // A message goes into the lent room.
    pub(crate) fn play<'a>(
        &mut self,
        step: Step<'_>,
        room: &'a mut [u8; REPLY],
    ) -> Result<Reply<'a>, Refusal> {
        let memory = &mut *self.memory;
        Ok(match step {
            Step::Open(clock) => {
                desk::open(memory, clock);
                Reply::Open(clock)
            }
            Step::Start => Reply::Start(desk::start(memory)?),
            Step::Read(name, key) => Reply::Read(master::read(memory, name, key)?),
            Step::Note(name, key, ordinal) => {
                Reply::Note(master::note(memory, name, key, ordinal)?)
            }
            Step::Write(name, key, value) => {
                desk::write(memory, name, key, value)?;
                Reply::Write
            }
            Step::Tune(name, k1, k2, k3) => {
                desk::tune(memory, name, k1, k2, k3)?;
                Reply::Tune
            }
            Step::Distance(name, place) => Reply::Distance(master::distance(memory, name, place)?),
            Step::Abort(name) => {
                desk::abort(memory, name)?;
                Reply::Abort
            }
            Step::Commit(name) => match master::commit(memory, name) {
                Ok(stamp) => Reply::Commit(stamp),
                Err(NotCommitted::Aborted(rule)) => Reply::Aborted(rule),
                Err(NotCommitted::Refused(refusal)) => return Err(refusal),
            },
            Step::Message(stamp, most) => {
                let room = &mut room[..REPLY.min(most as usize)];
                let n = post::send(memory, stamp, room)?;
                Reply::Message(&room[..n.min(room.len())])
            }
            Step::Newest(key) => Reply::Newest(master::newest(memory, key)?),
            Step::Copy => {
                self.copy = Copy::fresh();
                Reply::Copy
            }
            Step::Take(text) => {
                self.copy.take(text)?;
                Reply::Take
            }
            Step::Look(key) => Reply::Look(self.copy.read(key)?),
            Step::Compare => Reply::Compare(comparison::compare(memory, self.copy.ordinals())?),
        })
    }
}
