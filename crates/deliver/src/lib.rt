// Delivery: the table, the statuses and the copy, written from the fate of each transaction once all but refusal 14 is decided.
#![tactic(auto)]

ghost use Rattle.std.specs.Prelude.{◌≡◌};
ghost use Rattle.lists.specs.Tables.{count_if, coded};
ghost use Rattle.format.specs.Limits.{max_transaction};
ghost use Rattle.journal.specs.Inputs.{inputs_of};
ghost use Rattle.journal.specs.Outcomes.{answer_of};
ghost use Rattle.arrays.specs.Ends.{codes};
ghost use Rattle.trace.specs.Codes.{fate_codes};
ghost use Rattle.deliver.specs.Delivery.{Deliverable, delivered};
ghost use Rattle.deliver.specs.Answers.{totals_of};

use arrays::End;
use format::{Lsn, RECORD_BYTES, TRANSACTION_SLOTS};
use journal::Reason;
use lists::at;
use repair::number_of;
use trace::{Fate, Records};

// How many transactions survive, are undone and were aborted, and the bytes of the copy.
#[derive(Clone, Copy)]
pub struct UndoTotals {
    pub surviving: u32,
    pub undone: u32,
    pub aborted: u32,
    pub bytes: usize,
}

// How many transactions have each fate, and how many were aborted.
fn totals(ends: &[End], fates: &[Fate], bytes: usize) -> UndoTotals
    ensures { (result.surviving ≡ count_if (coded 1 (fate_codes fates.now)) 1 max_transaction)
        × (result.undone ≡ count_if (coded 2 (fate_codes fates.now)) 1 max_transaction)
        × (result.aborted ≡ count_if (coded 2 (codes ends.now)) 1 max_transaction) × (result.bytes ≡ bytes) }
{
    UndoTotals {
        surviving: number_of(fates, Fate::Neither, Fate::Surviving),
        undone: number_of(fates, Fate::Neither, Fate::Undone),
        aborted: number_of(ends, End::Open, End::Aborted),
        bytes,
    }
}

// What the surviving transactions leave: the copy, at the front of `out`, the table, the statuses and the counts; or refusal 14,
// which writes nothing. The records are all that the journal has, they passed, and the journal has `keys` items; `ends` and `fates`
// have the end and the fate of each transaction. Table, status and `out` are document 01's loans, and any fates can be delivered of the
// records, so they stand apart.
pub fn deliver(
    records: &Records,
    keys: u32,
    ends: &[End],
    fates: &[Fate; TRANSACTION_SLOTS],
    table: &mut [i32],
    status: &mut [u8],
    out: &mut [u8],
) -> Result<UndoTotals, Reason>
    requires { Deliverable records.now.journal.now records.now.count keys (codes ends.now) status.old }
    ensures answer { answer_of totals_of result
        ≡ (delivered (inputs_of records.now.journal.now table.old) (fate_codes fates.now) status.old
        out.old).answer }
    ensures table { table.new
        ≡ (delivered (inputs_of records.now.journal.now table.old) (fate_codes fates.now) status.old
        out.old).table }
    ensures status { status.new
        ≡ (delivered (inputs_of records.now.journal.now table.old) (fate_codes fates.now) status.old
        out.old).status }
    ensures out { out.new
        ≡ (delivered (inputs_of records.now.journal.now table.old) (fate_codes fates.now) status.old
        out.old).out }
{
    let ranks = repair::ranks(records, fates);
    let bytes = RECORD_BYTES * (at::<Lsn, _>(&ranks, Lsn(records.count), 0) as usize + 1);
    if out.len() < bytes {
        return Err(Reason::Capacity);
    }
    repair::copy(records, keys, fates, &ranks, out);
    replay::replay(records, fates, table);
    replay::publish(fates, status);
    Ok(totals(ends, fates, bytes))
}
