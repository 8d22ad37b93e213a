// The undo set: each transaction's fate, from one pass over a journal whose records passed.
#![tactic(auto)]

ghost use Rattle.std.specs.Prelude.{◌≡◌, ℕ, ◌+◌, ◌≤◌, length, map};
ghost use Rattle.lists.specs.Tables.{stepped};
ghost use Rattle.format.specs.Layout.{record_at};
ghost use Rattle.format.specs.Limits.{journal_bytes, max_records};
ghost use Rattle.model.specs.History.{write};
ghost use Rattle.model.specs.Undo.{is_source};
ghost use Rattle.journal.specs.Journal.{history};
ghost use Rattle.journal.specs.Calls.{statuses};
ghost use Rattle.arrays.specs.Arrays.{Ready, IsEnds};
ghost use Rattle.arrays.specs.Ends.{code_of, codes};
ghost use Rattle.trace.specs.Codes.{coded, flags_of, fate_code, fate_codes, fate_of, fates_of};
ghost use Rattle.trace.specs.Trace.{flags_read, sources_write, trace_step};

use arrays::End;
use format::{
    ITEM_SLOTS, Key, Kind, Lsn, Record, TRANSACTION_SLOTS, TRANSACTIONS_END, TransactionId,
    record_at,
};
use lists::{Code, Mark, at, code_at, put};

// What becomes of a transaction. One that committed survives or is undone.
#[derive(Clone, Copy, Debug, PartialEq, Eq)]
pub enum Fate {
    Neither = 0,
    Surviving = 1,
    Undone = 2,
}

impl Code for Fate {
    ghost code = { fate_code };

    fn code(self) -> u8 {
        self as u8
    }
}

// The first `count` records of a journal, all of which are in its bytes. Less than a `Journal`: no head is looked at, so none is asked;
// that they passed is asked by those who need it.
#[derive(Clone, Copy)]
pub struct Records<'j> {
    pub journal: &'j [u8],
    pub count: u32,
    pub ghost long: { journal_bytes count ≤ length journal.now },
    pub ghost few: { count ≤ max_records },
}

impl Records<'_> {
    // Record i, which is one of them or the head: a loop's index says so.
    pub fn at(&self, i: Lsn) -> Record
        requires { i.0 ≤ self.now.count }
        ensures { result ≡ record_at self.now.journal.now i.0 }
    {
        record_at(self.journal, i)
    }
}

// No transaction, as a source: document 01 numbers transactions from 1. An `Option` would take twice the bytes of the stack.
const NOBODY: TransactionId = TransactionId(0);

// A flag for each listed transaction.
fn listed(bad: &[u16]) -> [bool; TRANSACTION_SLOTS]
    ensures { result ≡ flags_of bad.now }
{
    let mut flags = [false; TRANSACTION_SLOTS];
    for s in bad {
        put::<TransactionId, _>(&mut flags, TransactionId(*s), true);
    }
    flags
}

// A read, fed by a transaction with a flag.
#[tactic(auto, unfolding(crate::specs::Trace::flags_read))]
fn trace_read<F: Mark>(sources: &[TransactionId], r: Record, flags: &mut [F])
    ensures { flags.new
        ≡ flags_read F.unmarked F.marked F.is_marked sources.now r.transaction.0 r.item.0 flags.old }
{
    let source = at::<Key, _>(sources, r.item, NOBODY);
    if source != NOBODY && at::<TransactionId, _>(flags, source, F::unmarked()).is_marked() {
        put::<TransactionId, _>(flags, r.transaction, F::marked());
    }
}

// Whether a write may feed a later read: it changed the amount (document 02, request 3).
fn may_feed(r: Record) -> bool
    ensures { (i : ℕ) → result ≡ is_source (write i r.transaction.0 r.item.0 r.before r.after) }
{
    r.before != r.after
}

// A write that may feed: it feeds later reads if its transaction commits.
#[tactic(auto, unfolding(crate::specs::Trace::sources_write, lists::specs::Tables::coded))]
fn trace_write<E: Code>(ends: &[E], r: Record, sources: &mut [TransactionId])
    ensures { sources.new
        ≡ sources_write (map E.code ends.now) r.transaction.0 r.item.0 sources.old }
{
    if code_at::<TransactionId, _>(ends, r.transaction) == End::Committed as u8 {
        put::<Key, _>(sources, r.item, r.transaction);
    }
}

// Record i in the trace.
fn trace_record<E: Code, F: Mark>(
    records: &Records,
    i: Lsn,
    ends: &[E],
    sources: &mut [TransactionId],
    flags: &mut [F],
)
    requires { i.0 ≤ records.now.count }
    ensures { (sources.new, flags.new)
        ≡ trace_step F.unmarked F.marked F.is_marked records.now.journal.now (map E.code ends.now) i.0
        (sources.old, flags.old) }
{
    let r = records.at(i);
    match Kind::try_from(r.kind) {
        Ok(Kind::Read) => trace_read(sources, r, flags),
        Ok(Kind::Write) if may_feed(r) => trace_write(ends, r, sources),
        _ => {}
    }
}

// All the records in the trace, from any sources and any flags: both are the caller's, who may go on from them. The loop is one line, so
// it has no function for any step.
pub fn trace_records<E: Code, F: Mark>(
    records: &Records,
    ends: &[E],
    sources: &mut [TransactionId],
    flags: &mut [F],
)
    ensures { (sources.new, flags.new)
        ≡ stepped
        (trace_step F.unmarked F.marked F.is_marked records.now.journal.now (map E.code ends.now))
        records.now.count (sources.old, flags.old) }
{
    for i in 0..records.count {
        trace_record(records, Lsn(i + 1), ends, sources, flags);
    }
}

// The fate of a transaction, by its end and its flag.
fn fate_for(end: End, flag: bool) -> Fate
    ensures { result ≡ fate_of (code_of end) flag }
{
    match (end, flag) {
        (End::Committed, true) => Fate::Undone,
        (End::Committed, false) => Fate::Surviving,
        (End::Open | End::Aborted, _) => Fate::Neither,
    }
}

fn fates(ends: &[End], flags: &[bool]) -> [Fate; TRANSACTION_SLOTS]
    ensures { result ≡ fates_of (codes ends.now) flags.now }
{
    let mut all = [Fate::Neither; TRANSACTION_SLOTS];
    for i in 0..TRANSACTIONS_END {
        let s = TransactionId(i);
        put::<TransactionId, _>(
            &mut all,
            s,
            fate_for(
                at::<TransactionId, _>(ends, s, End::Open),
                at::<TransactionId, _>(flags, s, false),
            ),
        );
    }
    all
}

// Transaction s survives; one behind the end of the list does not.
#[tactic(auto, unfolding(lists::specs::Tables::coded))]
pub fn survives<F: Code>(fates: &[F], s: TransactionId) -> bool
    ensures { result ≡ coded 1 (map F.code fates.now) s.0 }
{
    code_at::<TransactionId, _>(fates, s) == Fate::Surviving as u8
}

// The fate of each transaction; `ends` has the end of each.
pub fn classify(records: &Records, ends: &[End], bad: &[u16]) -> [Fate; TRANSACTION_SLOTS]
    requires ready { Ready records.now.journal.now records.now.count }
    requires ended { IsEnds records.now.journal.now records.now.count (codes ends.now) }
    ensures { fate_codes result
        ≡ statuses bad.now (history records.now.journal.now records.now.count) }
{
    let mut flags = listed(bad);
    let mut sources = [NOBODY; ITEM_SLOTS];
    trace_records(records, ends, &mut sources, &mut flags);
    fates(ends, &flags)
}
