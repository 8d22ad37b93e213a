// What one pass over the records keeps, and who wrote an item last.
#![tactic(auto)]

ghost use Rattle.std.specs.Prelude.{◌≡◌, ◌<◌, length, map};
ghost use Rattle.format.specs.Limits.{max_items};
ghost use Rattle.arrays.specs.Past.{past};
ghost use Rattle.arrays.specs.Writers.{writer_of, looked};

mod end;
mod kept;
mod pass;

pub use end::End;
use format::{Key, Lsn, TransactionId, transaction_at};
pub use kept::{Amounts, Kept, Seen, Touches, Writers};
use lists::{Code, Number};
pub use pass::{Pass, Passed};

// Who touched an item: another active transaction, and the one that asks.
#[derive(Clone, Copy)]
pub struct Touched {
    pub other: bool,
    pub own: bool,
}

// What was found so far, with transaction v added; s asks.
pub fn look<E: Code>(ends: &[E], s: TransactionId, v: TransactionId, found: Touched) -> Touched
    requires { v.0 < length ends.now }
    ensures { result ≡ looked (map E.code ends.now) s.0 v.0 found }
{
    if s == v {
        return Touched { own: true, ..found };
    }
    if ends[TransactionId::index(v)].code() == End::Open as u8 {
        Touched {
            other: true,
            ..found
        }
    } else {
        found
    }
}

// Who wrote item x last; s asks.
pub fn last_writer(writers: &Writers, x: Key, s: TransactionId) -> Touched
    requires { x.0 < max_items }
    ensures { result ≡ writer_of (past writers.now) s.0 x.0 }
{
    let nobody = Touched {
        other: false,
        own: false,
    };
    let w = Lsn(writers.writes[Key::index(x)]);
    if w.0 == 0 {
        return nobody;
    }
    let v = transaction_at(writers.journal, w);
    let ends = writers.ends;
    look(ends, s, v, nobody)
}
