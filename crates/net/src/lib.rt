// The net change of a journal (document 02: the sum): after less before over its writes, as a signed number.
#![tactic(auto)]

ghost use Rattle.std.specs.Prelude.{◌≡◌, ◌+◌, ◌*◌, ◌≤◌, ◌-ℤ◌, nat_abs, length};
ghost use Rattle.format.specs.Layout.{record_at};
ghost use Rattle.format.specs.Limits.{journal_bytes, max_records};
ghost use Rattle.model.specs.Net.{net_with, net_change};
ghost use Rattle.net.specs.Bounds.{max_difference};
ghost use Rattle.net.specs.Held.{net_in};
ghost use Rattle.journal.specs.Journal.{op_of, history};

use fields::{Journal, header};
use format::{Kind, Lsn, record_at};

// After less before: the difference of two amounts of 32 bits takes 33.
fn difference(before: i32, after: i32) -> i64
    ensures sum { result ≡ after -ℤ before }
    ensures within { nat_abs result ≤ max_difference }
{
    i64::from(after) - i64::from(before)
}

// A net change with record i more.
#[tactic(auto, unfolding(journal::specs::Journal::op_of))]
fn with_record(journal: &[u8], i: Lsn, net: i64) -> i64
    requires long { journal_bytes i.0 ≤ length journal.now }
    requires within { nat_abs net ≤ max_difference * max_records }
    ensures sum { result ≡ net_with (op_of i.0 (record_at journal.now i.0)) net }
    ensures within { nat_abs result ≤ nat_abs net + max_difference }
{
    let r = record_at(journal, i);
    if let Ok(Kind::Write) = Kind::try_from(r.kind) {
        net + difference(r.before, r.after)
    } else {
        net
    }
}

// The net change of all records, in one pass: at most 4,294,967,295 a record either side of zero.
#[tactic(auto, using(crate::proofs::NetRecords::one_more))]
fn net_change(journal: Journal) -> i64
    ensures sum { result ≡ net_change (history journal.entry.bytes.now journal.entry.records) }
    ensures within { nat_abs result ≤ max_difference * journal.entry.records }
{
    let mut net = 0;
    for i in 0..journal.records {
        net = with_record(journal.bytes, Lsn(i + 1), net);
    }
    net
}

// The net change of a journal whose head is right; 0 where it is refused. A report prints it only of the copy of a take-back that is
// accepted.
#[tactic(auto, unfolding(crate::specs::Held::net_in, journal::specs::Journal::whole))]
pub fn net_in(journal: &[u8]) -> i64
    ensures { (result ≡ net_in journal.now) × (nat_abs result ≤ max_difference * max_records) }
{
    match header(journal) {
        Ok(journal) => net_change(journal),
        Err(_) => 0,
    }
}
