// Rules 4 to 9 of a journal's records: `next` by one pass back, the rest by one pass forward.
#![tactic(auto)]

ghost use Rattle.std.specs.Prelude.{◌≡◌, cond, ◌+◌, ◌<◌, OnOk};
ghost use Rattle.format.specs.Layout.{record_at};
ghost use Rattle.journal.specs.Orders.{decide, record_order, records_order};
ghost use Rattle.journal.specs.Outcomes.{refusal_in};
ghost use Rattle.scan.specs.Chain.{nexts_of, broken, lowest_broken};

use arrays::Pass;
use fields::{Journal, formed};
use format::{
    Lsn, MAX_TRANSACTION, Record, TRANSACTION_SLOTS, TransactionId, next_at, record_at,
    transaction_at,
};
use journal::Reason;
use lists::Number;
use note::note;
use rules::judge;

// The lowest record from j + 1 on whose next is wrong, where `low` is that from j + 2 on; `slots` has the lowest later record of
// each transaction. Records of transactions above 1,024 are passed over.
// 0 is none, as in the field `next` that the slots are compared with.
fn step_back(journal: Journal, j: u32, low: Lsn, slots: &mut [u32; TRANSACTION_SLOTS]) -> Lsn
    requires { (j < journal.records) × (slots.old ≡ nexts_of journal.bytes.now (j + 1)) }
    ensures low { result.0 ≡ cond (broken journal.entry.bytes.now (j + 1)) (j + 1) low.0 }
    ensures slots { slots.new ≡ nexts_of journal.entry.bytes.now j }
{
    let i = Lsn(j + 1);
    let s = transaction_at(journal.bytes, i);
    let next = next_at(journal.bytes, i);
    if MAX_TRANSACTION < s.0 {
        return low;
    }
    let at = TransactionId::index(s);
    let later = slots[at];
    slots[at] = i.0;
    if next.0 == later { low } else { i }
}

// The lowest record whose next is wrong, 0 if there is none.
fn broken_link(journal: Journal) -> Lsn
    ensures { result.0 ≡ lowest_broken journal.entry.bytes.now 1 journal.entry.records }
{
    let mut slots = [0; TRANSACTION_SLOTS];
    let mut low = Lsn(0);
    for j in (0..journal.records).rev() {
        low = step_back(journal, j, low, &mut slots);
    }
    low
}

// Rules 4 to 9 of r, the next record; `low` is the lowest record whose next is wrong.
fn check_record(pass: &Pass, low: Lsn, r: Record) -> Result<(), Reason>
    requires { (pass.now.n < pass.now.journal.records)
        × (low.0 ≡ lowest_broken pass.now.journal.bytes.now 1 pass.now.journal.records)
        × (r ≡ record_at pass.now.journal.bytes.now (pass.now.n + 1)) }
    ensures { refusal_in result ≡ decide (record_order pass.now.journal.bytes.now (pass.now.n + 1)) }
{
    let i = Lsn(pass.n + 1);
    if !formed(pass.journal.items, r) {
        return Err(Reason::Malformed(i));
    }
    if low == i {
        return Err(Reason::Chain(i));
    }
    judge(&pass.seen(), r)
}

// Rules 4 to 9 of all records, from the first: the lowest record that breaks one is refused, by its lowest number.
pub fn records(pass: &mut Pass) -> Result<(), Reason>
    requires { pass.old.n ≡ 0 }
    ensures answer { refusal_in result ≡ decide (records_order pass.old.journal.bytes.now) }
    ensures journal { pass.new.journal ≡ pass.old.journal }
    ensures all { OnOk result (pass.new.n ≡ pass.old.journal.records) }
{
    let journal = pass.journal;
    let low = broken_link(journal);
    for n in 0..journal.records {
        let r = record_at(journal.bytes, Lsn(n + 1));
        check_record(pass, low, r)?;
        note(journal.bytes, n, r, &mut pass.kept);
        pass.n = n + 1;
    }
    Ok(())
}
