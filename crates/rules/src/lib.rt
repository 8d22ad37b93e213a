// Rules 6 to 9 of one record after records that passed.
#![tactic(auto)]

ghost use Rattle.std.specs.Prelude.{◌≡◌, false, not, ◌+◌, ◌<◌, pos, get_or};
ghost use Rattle.format.specs.Limits.{max_items, transaction_slots};
ghost use Rattle.model.specs.History.{Amount, read, write, standing};
ghost use Rattle.journal.specs.Journal.{items, op_of};
ghost use Rattle.journal.specs.Refusals.{malformed};
ghost use Rattle.journal.specs.Orders.{decide, access_order, rule_order};
ghost use Rattle.journal.specs.Outcomes.{refusal_in};
ghost use Rattle.arrays.specs.Past.{past};
ghost use Rattle.rules.specs.Standing.{unlike_standing};
ghost use Rattle.rules.specs.Readers.{readers_of};

use arrays::{Amounts, End, Seen, Touched, Touches, Writers, last_writer, look};
use format::{Key, Kind, Lsn, Record, TransactionId, record_at, transaction_at};
use journal::Reason;
use lists::Number;

// What was found so far, with the readers of item x since its last write added; s asks.
fn readers(touches: &Touches, x: Key, s: TransactionId, found: Touched) -> Touched
    requires { x.0 < max_items }
    ensures { result ≡ readers_of (past touches.now.writers) s.0 x.0 found }
{
    let journal = touches.writers.journal;
    let ends = touches.writers.ends;
    let mut all = found;
    // No index is counted: this goes from read to read, by the links.
    let mut k = Lsn(touches.reads[Key::index(x)]);
    while k.0 != 0 {
        let v = transaction_at(journal, k);
        all = look(ends, s, v, all);
        k = Lsn(touches.links[Lsn::index(k)]);
    }
    all
}

// The standing amount of an item that was written: the after image of its last write or, if that transaction aborted, the before
// image of the transaction's first write of it.
pub fn standing_at(amounts: &Amounts, x: Key) -> i32
    requires { (x.0 < max_items) × (get_or amounts.now.writers.writes.now x.0 0 ≡ 0 → ⊥) }
    ensures { result ≡ standing (pos 0) (past amounts.now.writers) x.0 }
{
    let journal = amounts.writers.journal;
    let w = Lsn(amounts.writers.writes[Key::index(x)]);
    let v = transaction_at(journal, w);
    match amounts.writers.ends[TransactionId::index(v)] {
        End::Aborted => {
            let first = record_at(journal, Lsn(amounts.bases[Key::index(x)]));
            first.before
        }
        End::Open | End::Committed => {
            let last = record_at(journal, w);
            last.after
        }
    }
}

// Item x has no write yet, or this is its standing amount: rule 9 of a before image, rule 10 of the table's amount.
pub fn matches_standing(amounts: &Amounts, x: Key, amount: i32) -> bool
    requires { x.0 < max_items }
    ensures { result ≡ not (unlike_standing (past amounts.now.writers) x.0 amount) }
{
    amounts.writers.writes[Key::index(x)] == 0 || amount == standing_at(amounts, x)
}

// Rules 7 and 8 of a read of item x by s, the next record; s has not ended. Item and transaction are given, and not the
// record, so that nothing below takes them from its bytes once more.
fn judge_read(writers: &Writers, x: Key, s: TransactionId) -> Result<(), Reason>
    requires { (x.0 < max_items) × (s.0 < transaction_slots) × (get_or writers.now.ends.now s.0 End.Open ≡ End.Open) }
    ensures { refusal_in result
        ≡ decide (access_order (past writers.now) (writers.now.n + 1) (read (writers.now.n + 1) s.0 x.0)) }
{
    let writer = last_writer(writers, x, s);
    if writer.other {
        Err(Reason::Conflict(Lsn(writers.n + 1)))
    } else {
        Ok(())
    }
}

// Rules 7 and 8 of a write of item x by s, the next record; s has not ended.
fn judge_write(touches: &Touches, x: Key, s: TransactionId) -> Result<(), Reason>
    requires { (x.0 < max_items) × (s.0 < transaction_slots)
        × (get_or touches.now.writers.ends.now s.0 End.Open ≡ End.Open) }
    ensures { (before after : Amount) → refusal_in result
        ≡ decide (access_order (past touches.now.writers) (touches.now.writers.n + 1)
        (write (touches.now.writers.n + 1) s.0 x.0 before after)) }
{
    let i = Lsn(touches.writers.n + 1);
    let writer = last_writer(&touches.writers, x, s);
    let touched = readers(touches, x, s, writer);
    if touched.other {
        return Err(Reason::Conflict(i));
    }
    if touched.own {
        Ok(())
    } else {
        Err(Reason::Blind(i))
    }
}

// Rules 6 to 8 of r as the next record; r is not malformed. Compiled into `judge` and into post's one call (see there).
#[inline(always)]
pub fn judge_access(touches: &Touches, r: Record) -> Result<(), Reason>
    requires { malformed (items touches.now.writers.journal.now) r ≡ false }
    ensures { refusal_in result
        ≡ decide (access_order (past touches.now.writers) (touches.now.writers.n + 1)
        (op_of (touches.now.writers.n + 1) r)) }
{
    let s = r.transaction;
    match touches.writers.ends[TransactionId::index(s)] {
        End::Open => {}
        End::Committed | End::Aborted => return Err(Reason::Closed(Lsn(touches.writers.n + 1))),
    }
    match Kind::try_from(r.kind) {
        Ok(Kind::Read) => judge_read(&touches.writers, r.item, s),
        Ok(Kind::Write) => judge_write(touches, r.item, s),
        Ok(Kind::Commit | Kind::Abort) | Err(_) => Ok(()),
    }
}

// Rules 6 to 9 of r as the next record; r is not malformed.
// Compiled into the loop over the records: with a call for each record check took 1.24 times linear Rust's instructions, and takes 0.83
// without.
#[inline(always)]
pub fn judge(seen: &Seen, r: Record) -> Result<(), Reason>
    requires { malformed (items seen.now.touches.writers.journal.now) r ≡ false }
    ensures { refusal_in result
        ≡ decide (rule_order (past seen.now.touches.writers) (seen.now.touches.writers.n + 1)
        (op_of (seen.now.touches.writers.n + 1) r)) }
{
    judge_access(&seen.touches, r)?;
    let Ok(Kind::Write) = Kind::try_from(r.kind) else {
        return Ok(());
    };
    if matches_standing(&seen.amounts(), r.item, r.before) {
        Ok(())
    } else {
        Err(Reason::BeforeImage(Lsn(seen.touches.writers.n + 1)))
    }
}
