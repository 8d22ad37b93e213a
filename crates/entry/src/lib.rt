// Whether a journal that passes check takes one record more: rule 15, then 4, 6 to 8 and 14 of the new record.
#![tactic(auto)]

ghost use Rattle.std.specs.Prelude.{◌≡◌, ◌≤◌, not};
ghost use Rattle.format.specs.Limits.{max_records};
ghost use Rattle.journal.specs.Journal.{count, items};
ghost use Rattle.journal.specs.Refusals.{no_room, wrong_counts};
ghost use Rattle.journal.specs.Orders.{new_order, decide};
ghost use Rattle.journal.specs.Outcomes.{refusal_in};
ghost use Rattle.arrays.specs.Arrays.{Ready};
ghost use Rattle.counts.specs.Answers.{record_counts_of};
ghost use Rattle.entry.specs.Entries.{entry_order};

use arrays::Touches;
use counts::{Counts, count_kinds};
use fields::formed;
use format::{Lsn, MAX_RECORDS, RECORD_BYTES, Record};
use journal::Reason;
use rules::judge_access;

// Rule 15: the counts agree with the journal. No working array is looked at here or in 14, so journal and record count stand alone.
#[tactic(auto, unfolding(journal::specs::Refusals::wrong_counts, journal::specs::Journal::whole))]
fn agrees(journal: &[u8], n: u32, counts: Counts) -> bool
    requires { Ready journal.now n × (n ≡ count journal.now) }
    ensures { result ≡ not (wrong_counts journal.now (record_counts_of counts)) }
{
    counts == count_kinds(journal, n)
}

// Rule 14: fewer than 3,200 records, and 20 bytes behind the journal.
#[tactic(auto, unfolding(journal::specs::Refusals::no_room))]
fn has_room(journal: &[u8], n: u32) -> bool
    requires { (n ≡ count journal.now) × (n ≤ max_records) }
    ensures { result ≡ not (no_room journal.now) }
{
    n < MAX_RECORDS && RECORD_BYTES * (n as usize + 1) + RECORD_BYTES <= journal.len()
}

// Rules 4, 6 to 8 and 14 of the new record, where all records passed.
#[tactic(auto, using(crate::proofs::Judging::new_parts))]
fn judge_new(touches: &Touches, keys: u32, r: Record) -> Result<(), Reason>
    requires { (touches.now.writers.n ≡ count touches.now.writers.journal.now)
        × (keys ≡ items touches.now.writers.journal.now) }
    ensures { refusal_in result ≡ decide (new_order touches.now.writers.journal.now r) }
{
    let n = touches.writers.n;
    if !formed(keys, r) {
        return Err(Reason::Malformed(Lsn(n + 1)));
    }
    judge_access(touches, r)?;
    let journal = touches.writers.journal;
    if has_room(journal, n) {
        Ok(())
    } else {
        Err(Reason::Capacity)
    }
}

// Rule 15, then the new record. `keys` is the item count: the caller has it, and a view of the arrays does not.
#[tactic(auto, using(crate::proofs::Judging::entry_parts))]
pub fn judge_entry(touches: &Touches, keys: u32, counts: Counts, r: Record) -> Result<(), Reason>
    requires { (touches.now.writers.n ≡ count touches.now.writers.journal.now)
        × (keys ≡ items touches.now.writers.journal.now) }
    ensures { refusal_in result
        ≡ decide (entry_order touches.now.writers.journal.now (record_counts_of counts) r) }
{
    let journal = touches.writers.journal;
    if !agrees(journal, touches.writers.n, counts) {
        return Err(Reason::Counts);
    }
    judge_new(touches, keys, r)
}
