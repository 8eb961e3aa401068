// The refusals of document 01's table, by name; its numbers stand in one place.
ghost use Rattle.std.specs.Prelude.{◌≡◌};
ghost use Rattle.units.specs.Refusal.{number_of};

#[derive(Clone, Copy, PartialEq, Eq)]
pub enum Refusal {
    NoTransaction,
    NoKey,
    DeskFull,
    TransactionFull,
    ClockSpent,
    LogFull,
    NoVersion,
    KeyWritten,
    NoSuchBoundOrPlace,
    NotAMessage,
    OrdinalAhead,
    HistoryTooLong,
    NotARecord,
    TooManyLines,
    WrongTransaction,
    TooManyTransactions,
    NoRoom,
    NothingWritten,
}

impl Refusal {
    pub fn number(self) -> u8
        ensures { result ≡ number_of self }
    {
        match self {
            Refusal::NoTransaction => 1,
            Refusal::NoKey => 2,
            Refusal::DeskFull => 3,
            Refusal::TransactionFull => 4,
            Refusal::ClockSpent => 5,
            Refusal::LogFull => 6,
            Refusal::NoVersion => 7,
            Refusal::KeyWritten => 8,
            Refusal::NoSuchBoundOrPlace => 9,
            Refusal::NotAMessage => 10,
            Refusal::OrdinalAhead => 11,
            Refusal::HistoryTooLong => 12,
            Refusal::NotARecord => 13,
            Refusal::TooManyLines => 14,
            Refusal::WrongTransaction => 15,
            Refusal::TooManyTransactions => 16,
            Refusal::NoRoom => 17,
            Refusal::NothingWritten => 18,
        }
    }
}
