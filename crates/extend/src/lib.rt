// One record more, written: the record, the chain, the record count, the table and the counts by kind. The journal is lent to be
// written, so its bytes and its record count stand apart, and no `Records` can hold them.
#![tactic(auto)]

ghost use Rattle.std.specs.Prelude.{◌≡◌, false, ◌+◌, ◌≤◌, ◌<◌, length, IfSome};
ghost use Rattle.lists.specs.Search.{latest};
ghost use Rattle.format.specs.Layout.{record_at};
ghost use Rattle.format.specs.Limits.{record_bytes, journal_bytes, max_records};
ghost use Rattle.model.specs.History.{abort, tag_in, of_tx};
ghost use Rattle.journal.specs.Journal.{count, items, op_of, history};
ghost use Rattle.journal.specs.Refusals.{malformed};
ghost use Rattle.journal.specs.Calls as calls;
ghost use Rattle.arrays.specs.Arrays.{Ready};
ghost use Rattle.counts.specs.Answers.{record_counts_of};
ghost use Rattle.extend.specs.Entering.{lsn_of, restored_by, Admitted};

use counts::Counts;
use format::{
    Key, Kind, Lsn, RECORD_BYTES, Record, TransactionId, Wire, put_record, record_at,
    transaction_at,
};
use lists::Number;

// The last record of transaction s among the first n: the first found from the end.
#[tactic(auto, using(crate::proofs::Extending::from_the_end))]
fn last_of(journal: &[u8], n: u32, s: TransactionId) -> Option<Lsn>
    requires { journal_bytes n ≤ length journal.now }
    ensures found { lsn_of result ≡ tag_in (latest (of_tx s.0) (history journal.now n)) }
    ensures within { IfSome result (λ i. (1 ≤ i.0) × (i.0 ≤ n)) }
{
    for k in (0..n).rev() {
        let i = Lsn(k + 1);
        if transaction_at(journal, i) == s {
            return Some(i);
        }
    }
    None
}

// Record n is the next of record `last`.
#[tactic(auto, unfolding(journal::specs::Calls::link))]
fn link(journal: &mut [u8], last: Option<Lsn>, n: Lsn)
    requires { IfSome last (λ i. (1 ≤ i.0) × (journal_bytes i.0 ≤ length journal.old)) }
    ensures { journal.new ≡ calls.link n.0 (lsn_of last) journal.old }
{
    if let Some(i) = last {
        n.0.write(journal, RECORD_BYTES * i.index() + 4);
    }
}

// Writes record n + 1, the next of its transaction's last record until now, and the record count.
#[tactic(auto, using(crate::proofs::Extending::extends))]
fn extend(journal: &mut [u8], n: u32, r: Record)
    requires { (n ≡ count journal.old) × (n < max_records) × (journal_bytes n + record_bytes ≤ length journal.old) }
    ensures { journal.new ≡ calls.extended journal.old r }
{
    let last = last_of(journal, n, r.transaction);
    let i = Lsn(n + 1);
    let at = RECORD_BYTES * i.index();
    put_record(&mut journal[at..at + RECORD_BYTES], r);
    link(journal, last, i);
    i.0.write(journal, 4);
}

// The before image of record i, if it is a write of transaction s.
#[tactic(auto, using(crate::proofs::Tables::item_within), unfolding(crate::specs::Entering::restored_by))]
fn undo_write(journal: &[u8], i: Lsn, s: TransactionId, table: &mut [i32])
    requires { (journal_bytes i.0 ≤ length journal.now)
        × (malformed (length table.old) (record_at journal.now i.0) ≡ false) }
    ensures { table.new ≡ restored_by s.0 (record_at journal.now i.0) table.old }
{
    let r = record_at(journal, i);
    if let Ok(Kind::Write) = Kind::try_from(r.kind) {
        if r.transaction == s {
            table[Key::index(r.item)] = r.before;
        }
    }
}

// Each item that transaction s wrote returns to the before image of its first write of it: the writes are undone from the last to
// the first.
#[tactic(auto, using(crate::proofs::Tables::undone))]
fn restore(journal: &[u8], n: u32, s: TransactionId, table: &mut [i32])
    requires { Ready journal.now n × (length table.old ≡ items journal.now) }
    ensures { table.new
        ≡ calls.applied_table (history journal.now n) (abort (n + 1) s.0) table.old }
{
    for k in (0..n).rev() {
        undo_write(journal, Lsn(k + 1), s, table);
    }
}

// What record n + 1 does to the table.
#[tactic(auto, using(crate::proofs::Tables::by_kind))]
fn apply(journal: &[u8], n: u32, r: Record, table: &mut [i32])
    requires { Ready journal.now n × (length table.old ≡ items journal.now)
        × (malformed (items journal.now) r ≡ false) }
    ensures { table.new
        ≡ calls.applied_table (history journal.now n) (op_of (n + 1) r) table.old }
{
    match Kind::try_from(r.kind) {
        Ok(Kind::Write) => table[Key::index(r.item)] = r.after,
        Ok(Kind::Abort) => restore(journal, n, r.transaction, table),
        _ => {}
    }
}

// Writes a record that may follow: the table, the journal, and the counts.
pub fn enter(counts: &mut Counts, journal: &mut [u8], table: &mut [i32], n: u32, r: Record)
    requires { Admitted journal.old table.old counts.old n r }
    ensures { (record_counts_of counts.new ≡ calls.raised r.kind (record_counts_of counts.old))
        × (journal.new ≡ calls.extended journal.old r)
        × (table.new ≡ calls.applied_table (history journal.old n) (op_of (n + 1) r) table.old) }
{
    apply(journal, n, r, table);
    extend(journal, n, r);
    counts.raise(r.kind);
}
