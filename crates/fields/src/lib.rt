// The fields of a journal: its head, by refusals 1 and 2, and those of a record, by rule 4.
#![tactic(auto)]

ghost use Rattle.std.specs.Prelude.{◌≡◌, not, ◌&&◌, pos, IfOk};
ghost use Rattle.model.specs.History.{same_amount};
ghost use Rattle.journal.specs.Refusals.{head_right, body_right, malformed};
ghost use Rattle.journal.specs.Orders.{decide, open_order};
ghost use Rattle.journal.specs.Calls.{answered};
ghost use Rattle.journal.specs.Outcomes.{answer_of};
ghost use Rattle.fields.specs.Answers.{size_of};
ghost use Rattle.fields.specs.Heads.{size};

mod head;

use format::{Kind, Lsn, MAX_ITEMS, MAX_RECORDS, MAX_TRANSACTION, RECORD_BYTES, Record, record_at};
pub use head::Journal;
use journal::Reason;

// Before and after are 0.
fn no_amounts(r: Record) -> bool
    ensures { result ≡ same_amount r.before (pos 0) && same_amount r.after (pos 0) }
{
    r.before == 0 && r.after == 0
}

// The fields of record 0.
fn head_right(r: Record) -> bool
    ensures { result ≡ head_right r }
{
    r == Record::head(r.next.0, r.item.0)
        && r.next.0 <= MAX_RECORDS
        && 1 <= r.item.0
        && r.item.0 <= MAX_ITEMS
}

// The journal with its record count and item count, or refusal 1 or 2.
pub fn header(journal: &[u8]) -> Result<Journal<'_>, Reason>
    ensures answer { answer_of size result ≡ answered (decide (open_order journal.now)) (size_of journal.now) }
    ensures bytes { IfOk result (λ j. j.bytes.now ≡ journal.now) }
{
    if journal.len() < RECORD_BYTES {
        return Err(Reason::Truncated);
    }
    let r = record_at(journal, Lsn(0));
    if !head_right(r) {
        return Err(Reason::Header);
    }
    let size = RECORD_BYTES * (r.next.0 as usize + 1);
    if journal.len() < size {
        return Err(Reason::Truncated);
    }
    Ok(Journal {
        bytes: journal,
        records: r.next.0,
        items: r.item.0,
    })
}

// The item and the amounts of a record, by its kind; no record has another kind.
fn body_right(items: u32, r: Record) -> bool
    ensures { result ≡ body_right items r }
{
    match Kind::try_from(r.kind) {
        Ok(Kind::Read) => r.item.0 < items && no_amounts(r),
        Ok(Kind::Write) => r.item.0 < items,
        Ok(Kind::Commit | Kind::Abort) => r.item.0 == 0 && no_amounts(r),
        Err(_) => false,
    }
}

// Rule 4: the fields of a record but next, by its kind; `items` is the item count. It differs from journal to journal, so that a record
// is formed is a clause and no type.
#[tactic(auto, unfolding(journal::specs::Refusals::malformed))]
pub fn formed(items: u32, r: Record) -> bool
    ensures { result ≡ not (malformed items r) }
{
    r.reserved == 0
        && 1 <= r.transaction.0
        && r.transaction.0 <= MAX_TRANSACTION
        && body_right(items, r)
}
