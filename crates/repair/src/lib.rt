// The copy that take-back writes, by the ranks of the kept records, and how many transactions have a fate.
#![tactic(auto)]

ghost use Rattle.std.specs.Prelude.{◌≡◌, cond, ◌+◌, ◌≤◌, length, get_or, map};
ghost use Rattle.lists.specs.Tables.{count_if, store, stepped, coded};
ghost use Rattle.format.specs.Layout.{record_at};
ghost use Rattle.format.specs.Limits.{journal_bytes, max_records, max_transaction};
ghost use Rattle.repair.specs.Copying.{Ranked, copy_with, copy_step};

use format::{
    Lsn, RECORD_BYTES, RECORD_SLOTS, Record, TRANSACTIONS_END, TransactionId, put_record,
    transaction_at,
};
use lists::{Code, at};
use trace::{Records, survives};

// How many transactions have the value v; one behind the end of the list has the default. A loop, since LLVM makes vector code of it,
// and not of the count of a filter.
pub fn number_of<T: Copy + PartialEq>(list: &[T], default: T, v: T) -> u32
    ensures { result ≡ count_if (λ s. T.eq (get_or list.now s default) v) 1 max_transaction }
{
    let mut count = 0;
    for s in 1..TRANSACTIONS_END {
        count += u32::from(at::<TransactionId, _>(list, TransactionId(s), default) == v);
    }
    count
}

// How many of the first i records are kept, where `surviving` of those before record i are.
fn next_rank<F: Code>(records: &Records, i: Lsn, fates: &[F], surviving: u32) -> u32
    requires number { i.0 ≤ records.now.count }
    requires few { surviving ≤ max_records }
    ensures { result
        ≡ cond
        (coded 1 (map F.code fates.now) (record_at records.now.journal.now i.0).transaction.0)
        (surviving + 1) surviving }
{
    if survives(fates, transaction_at(records.journal, i)) {
        surviving + 1
    } else {
        surviving
    }
}

// How many of the first i records are kept, for each i. Ranks of their own type would have to hold the records and the fates too, so
// that they are the ranks of these is a clause.
pub fn ranks<F: Code>(records: &Records, fates: &[F]) -> [u32; RECORD_SLOTS]
    ensures { Ranked records.now.journal.now (map F.code fates.now) records.now.count result }
{
    let mut all = [0; RECORD_SLOTS];
    let mut surviving = 0;
    for i in 0..records.count {
        surviving = next_rank(records, Lsn(i + 1), fates, surviving);
        all[i as usize + 1] = surviving;
    }
    all
}

// Record i in the copy, at the place of its rank, if its transaction survives.
fn copy_record<F: Code>(records: &Records, i: Lsn, fates: &[F], ranks: &[u32], out: &mut [u8])
    requires count { i.0 ≤ records.now.count }
    requires room { journal_bytes (get_or ranks.now i.0 0) ≤ length out.old }
    ensures { out.new
        ≡ copy_step records.now.journal.now (map F.code fates.now) ranks.now i.0 out.old }
{
    let r = records.at(i);
    if survives(fates, r.transaction) {
        let next = Lsn(at::<Lsn, _>(ranks, r.next, 0));
        let start = RECORD_BYTES * at::<Lsn, _>(ranks, i, 0) as usize;
        put_record(&mut out[start..start + RECORD_BYTES], Record { next, ..r });
    }
}

// The kept records, each at the place of its rank. The loop is one line, so it has no function for any step.
fn copy_records<F: Code>(records: &Records, fates: &[F], ranks: &[u32], out: &mut [u8])
    requires ranked { Ranked records.now.journal.now (map F.code fates.now) records.now.count
        ranks.now }
    requires room { journal_bytes (get_or ranks.now records.now.count 0) ≤ length out.old }
    ensures { out.new
        ≡ stepped (copy_step records.now.journal.now (map F.code fates.now) ranks.now)
        records.now.count out.old }
{
    for i in 0..records.count {
        copy_record(records, Lsn(i + 1), fates, ranks, out);
    }
}

// The copy, at the front of `out`.
pub fn copy<F: Code>(records: &Records, keys: u32, fates: &[F], ranks: &[u32], out: &mut [u8])
    requires ranked { Ranked records.now.journal.now (map F.code fates.now) records.now.count
        ranks.now }
    requires room { journal_bytes (get_or ranks.now records.now.count 0) ≤ length out.old }
    ensures { out.new
        ≡ store 0
        (copy_with records.now.journal.now (map F.code fates.now) ranks.now records.now.count keys)
        out.old }
{
    let surviving = at::<Lsn, _>(ranks, Lsn(records.count), 0);
    put_record(&mut out[0..RECORD_BYTES], Record::head(surviving, keys));
    copy_records(records, fates, ranks, out);
}
