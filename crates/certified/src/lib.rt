// The calls with the demands in their contracts: beside the equation of each, what it promises (specs/Promises.antt). The C
// functions and the report call these; the crates below know nothing of the demands.
#![tactic(auto)]

ghost use Rattle.std.specs.Prelude.{◌≡◌};
ghost use Rattle.journal.specs.Inputs.{inputs_of};
ghost use Rattle.journal.specs.Outcomes.{answer_of};
ghost use Rattle.journal.specs.Calls as calls;
ghost use Rattle.counts.specs.Answers.{record_counts_of};
ghost use Rattle.certified.specs.Packed.{started_of, appended_of, walked_of, undone_of};
ghost use Rattle.certified.specs.Promises.{StartPromise, AppendPromise, CheckPromise, ChainPromise, CountPromise};
ghost use Rattle.certified.specs.Promises.{UndoPromise};

use counts::Counts;
use deliver::UndoTotals;
use format::{Key, TransactionId};
use journal::Reason;
use lists::at;

// Starts a journal of this many items (document 01, start).
pub fn start(journal: &mut [u8], items: u32) -> Result<(), Reason>
    ensures result { started_of result journal.new ≡ calls.start journal.old items }
    ensures demands { StartPromise journal.old items (started_of result journal.new) }
{
    init::start(journal, items)
}

// Adds one record (document 01, post). That the item's amount was read says that it is a signed 32-bit number, for the proof alone.
pub fn append(
    counts: &mut Counts,
    journal: &mut [u8],
    table: &mut [i32],
    kind: u8,
    transaction: TransactionId,
    item: Key,
    after: i32,
) -> Result<(), Reason>
    ensures result { appended_of result counts.new journal.new table.new
        ≡ calls.append (inputs_of journal.old table.old) (record_counts_of counts.old) kind transaction.0
        item.0 after }
    ensures demands { AppendPromise (inputs_of journal.old table.old) (record_counts_of counts.old)
        (record { kind = kind; tx = transaction.0; item = item.0; after = after })
        (appended_of result counts.new journal.new table.new) }
{
    let _seen = at::<Key, _>(table, item, 0);
    append::append(counts, journal, table, kind, transaction, item, after)
}

// How many transactions are active in a journal that passes with its table (document 01, check).
pub fn check(journal: &[u8], table: &[i32]) -> Result<u32, Reason>
    ensures result { answer_of (λ n. n) result ≡ calls.check (inputs_of journal.now table.now) }
    ensures demands { CheckPromise (inputs_of journal.now table.now) (answer_of (λ n. n) result) }
{
    validate::check(journal, table)
}

// Writes the record numbers of one transaction to the front of `lsns` (document 01, slip).
pub fn chain(journal: &[u8], transaction: TransactionId, lsns: &mut [u32]) -> Result<u32, Reason>
    ensures result { walked_of result lsns.new
        ≡ calls.chain journal.now transaction.0 lsns.old }
    ensures demands { ChainPromise journal.now transaction.0 lsns.old
        (walked_of result lsns.new) }
{
    chain::chain(journal, transaction, lsns)
}

// The records of a stored journal or a copy, by kind: what post asks for.
pub fn count_records(journal: &[u8]) -> Result<Counts, Reason>
    ensures result { answer_of record_counts_of result ≡ calls.count_records journal.now }
    ensures demands { CountPromise journal.now (answer_of record_counts_of result) }
{
    counts::count_records(journal)
}

// Takes back the listed transactions and those that read from them (document 01, take-back).
pub fn undo(
    journal: &[u8],
    table: &mut [i32],
    bad: &[u16],
    status: &mut [u8],
    out: &mut [u8],
) -> Result<UndoTotals, Reason>
    ensures result { undone_of result table.new status.new out.new
        ≡ calls.undo (inputs_of journal.now table.old) bad.now status.old
        out.old }
    ensures demands { UndoPromise (inputs_of journal.now table.old) bad.now
        status.old out.old (undone_of result table.new status.new out.new) }
{
    undo::undo(journal, table, bad, status, out)
}
