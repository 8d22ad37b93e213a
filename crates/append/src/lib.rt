// Append: one record more at the end of a journal, with the chain, the record count, the table and the counts by kind.
#![tactic(auto)]

ghost use Rattle.std.specs.Prelude.{◌≡◌, cond, eqb, pos};
ghost use Rattle.journal.specs.Inputs.{inputs_of};
ghost use Rattle.journal.specs.Journal.{count, amount_at};
ghost use Rattle.journal.specs.Orders.{append_order, decide};
ghost use Rattle.journal.specs.Calls as calls;
ghost use Rattle.counts.specs.Answers.{record_counts_of};
ghost use Rattle.journal.specs.Outcomes.{answer_of};
ghost use Rattle.append.specs.Answers.{Appends};

use arrays::Pass;
use counts::Counts;
use entry::judge_entry;
use extend::enter;
use fields::header;
use format::{Key, Kind, Lsn, Record, TransactionId};
use journal::Reason;
use lists::at;
use validate::verify_opened;

// The record count of a journal that takes the new record, or the first refusal in document 01's order: check, then the rest.
fn prepare(journal: &[u8], table: &[i32], counts: Counts, r: Record) -> Result<u32, Reason>
    ensures { answer_of (λ n. n) result
        ≡ calls.answered (decide (append_order (inputs_of journal.now table.now) (record_counts_of counts) r))
        (count journal.now) }
{
    let mut pass = Pass::new(header(journal)?);
    verify_opened(&mut pass, table)?;
    judge_entry(&pass.seen().touches, pass.journal.items, counts, r)?;
    Ok(pass.n)
}

// A write's before image comes from the table.
fn before_image(table: &[i32], kind: u8, item: Key) -> i32
    ensures { result ≡ cond (eqb kind 2) (amount_at table.now item.0) (pos 0) }
{
    if let Ok(Kind::Write) = Kind::try_from(kind) {
        at::<Key, _>(table, item, 0)
    } else {
        0
    }
}

// The record that is added; its next is 0.
fn new_record(table: &[i32], kind: u8, transaction: TransactionId, item: Key, after: i32) -> Record
    ensures { result ≡ calls.new_record table.now kind transaction.0 item.0 after }
{
    let before = before_image(table, kind, item);
    Record {
        kind,
        reserved: 0,
        transaction,
        next: Lsn(0),
        item,
        before,
        after,
    }
}

// Adds one record to a journal (document 01, post): decides first, then writes. One of the four counts, which are lent, rises by one. The
// kind is any byte, since document 01 has a refusal for one of no kind; the parameters are document 01's, one by one, as C gives them.
pub fn append(
    counts: &mut Counts,
    journal: &mut [u8],
    table: &mut [i32],
    kind: u8,
    transaction: TransactionId,
    item: Key,
    after: i32,
) -> Result<(), Reason>
    ensures { Appends counts.old
        (inputs_of journal.old table.old) kind transaction.0 item.0 after result counts.new
        journal.new table.new }
{
    let r = new_record(table, kind, transaction, item, after);
    // The refusal is handed on in an arm, where an edit can hand on another.
    match prepare(journal, table, *counts, r) {
        Ok(n) => {
            enter(counts, journal, table, n, r);
            Ok(())
        }
        Err(why) => Err(why),
    }
}
