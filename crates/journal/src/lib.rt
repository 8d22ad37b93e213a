// Document 01 at the bytes: the journal, each refusal, the order of each call, and the result of each call on any input. The code
// here is the type of refusals, with document 01's number and place of each.
#![tactic(auto)]

ghost use Rattle.std.specs.Prelude.{◌≡◌};
ghost use Rattle.journal.specs.Reasons.{number_of, place_of};

use format::{Key, Lsn, TransactionId};

// Why a call is refused, with the place (document 01, "Reasons for handing it back"). specs/Reasons.antt gives each its number and
// place.
#[derive(Clone, Copy, Debug, PartialEq, Eq)]
pub enum Reason {
    Truncated,
    Header,
    TableLength,
    Malformed(Lsn),
    Chain(Lsn),
    Closed(Lsn),
    Conflict(Lsn),
    Blind(Lsn),
    BeforeImage(Lsn),
    FinalState(Key),
    Active(TransactionId),
    Unknown(usize),
    StatusLength,
    Capacity,
    Counts,
}

impl Reason {
    // Document 01's number of a reason.
    pub fn number(self) -> u32
        ensures { result ≡ number_of self }
    {
        match self {
            Reason::Truncated => 1,
            Reason::Header => 2,
            Reason::TableLength => 3,
            Reason::Malformed(_) => 4,
            Reason::Chain(_) => 5,
            Reason::Closed(_) => 6,
            Reason::Conflict(_) => 7,
            Reason::Blind(_) => 8,
            Reason::BeforeImage(_) => 9,
            Reason::FinalState(_) => 10,
            Reason::Active(_) => 11,
            Reason::Unknown(_) => 12,
            Reason::StatusLength => 13,
            Reason::Capacity => 14,
            Reason::Counts => 15,
        }
    }

    // Its place: a record, an item, a transaction, a list position, or 0. A reason is two numbers, so neither of them is a `From`;
    // nor has std one of a `usize`.
    pub fn place(self) -> u64
        ensures { result ≡ place_of self }
    {
        match self {
            Reason::Truncated | Reason::Header | Reason::TableLength => 0,
            Reason::Malformed(i) | Reason::Chain(i) | Reason::Closed(i) => u64::from(i.0),
            Reason::Conflict(i) | Reason::Blind(i) | Reason::BeforeImage(i) => u64::from(i.0),
            Reason::FinalState(x) => u64::from(x.0),
            Reason::Active(s) => u64::from(s.0),
            Reason::Unknown(k) => k as u64,
            Reason::StatusLength | Reason::Capacity | Reason::Counts => 0,
        }
    }
}
