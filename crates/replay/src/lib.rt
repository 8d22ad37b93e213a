// What take-back leaves in the loans beside the copy: the table and the statuses, from the fate of each transaction.
#![tactic(auto)]

ghost use Rattle.std.specs.Prelude.{◌≡◌, ◌≤◌, length, map};
ghost use Rattle.lists.specs.Tables.{stepped, coded};
ghost use Rattle.format.specs.Limits.{transaction_slots, status_bytes};
ghost use Rattle.journal.specs.Journal.{history};
ghost use Rattle.arrays.specs.Arrays.{Ready};
ghost use Rattle.replay.specs.Replaying.{left_after, opened_at, table_write, replay_step};

use format::{ITEM_SLOTS, Key, Kind, Lsn, Record};
use lists::{Code, Mark, at, put};
use trace::{Records, survives};

// The opening amount of an item, at its first write.
#[tactic(auto, unfolding(crate::specs::Replaying::opened_at))]
fn open_item<S: Mark>(seen: &[S], r: Record, table: &mut [i32])
    ensures { table.new
        ≡ opened_at S.unmarked S.marked S.is_unmarked seen.now r.item.0 r.before table.old }
{
    if at::<Key, _>(seen, r.item, S::unmarked()).is_unmarked() {
        put::<Key, _>(table, r.item, r.before);
    }
}

// A write.
#[tactic(auto, unfolding(crate::specs::Replaying::table_write))]
fn replay_write<F: Code, S: Mark>(fates: &[F], seen: &[S], r: Record, table: &mut [i32])
    ensures { table.new
        ≡ table_write S.unmarked S.marked S.is_unmarked (map F.code fates.now) seen.now
        r.transaction.0 r.item.0 r.before r.after table.old }
{
    open_item(seen, r, table);
    if survives(fates, r.transaction) {
        put::<Key, _>(table, r.item, r.after);
    }
}

// Record i in the table.
fn replay_record<F: Code, S: Mark>(
    records: &Records,
    i: Lsn,
    fates: &[F],
    seen: &mut [S],
    table: &mut [i32],
)
    requires { i.0 ≤ records.now.count }
    ensures { (seen.new, table.new)
        ≡ replay_step S.unmarked S.marked S.is_unmarked records.now.journal.now
        (map F.code fates.now) i.0 (seen.old, table.old) }
{
    let r = records.at(i);
    if let Ok(Kind::Write) = Kind::try_from(r.kind) {
        replay_write(fates, seen, r, table);
        put::<Key, _>(seen, r.item, S::marked());
    }
}

// All the records in the table, from any table and any marks of the items written until then: both are the caller's, who may go on
// from them. The loop is one line, so it has no function for any step.
pub fn replay_records<F: Code, S: Mark>(
    records: &Records,
    fates: &[F],
    seen: &mut [S],
    table: &mut [i32],
)
    ensures { (seen.new, table.new)
        ≡ stepped
        (replay_step S.unmarked S.marked S.is_unmarked records.now.journal.now (map F.code fates.now))
        records.now.count (seen.old, table.old) }
{
    for i in 0..records.count {
        replay_record(records, Lsn(i + 1), fates, seen, table);
    }
}

// The table with the opening amount of each item, then the writes of surviving transactions in order.
pub fn replay<F: Code>(records: &Records, fates: &[F], table: &mut [i32])
    requires { Ready records.now.journal.now records.now.count }
    ensures { table.new
        ≡ left_after (coded 1 (map F.code fates.now))
        (history records.now.journal.now records.now.count) table.old }
{
    let mut seen = [false; ITEM_SLOTS];
    replay_records(records, fates, &mut seen, table);
}

// The fates into the status list, which is lent as a slice: 13 has refused one of another length.
pub fn publish<F: Code>(fates: &[F], status: &mut [u8])
    requires { (length fates.now ≡ transaction_slots) × (length status.old ≡ status_bytes) }
    ensures { status.new ≡ map F.code fates.now }
{
    for (s, code) in status.iter_mut().enumerate() {
        *code = fates[s].code();
    }
}
