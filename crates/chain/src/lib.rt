// The chain of one transaction: its record numbers, found by following next from its first record.
#![tactic(auto)]

ghost use Rattle.std.specs.Prelude.{◌≡◌, ◌≤◌, length};
ghost use Rattle.std.specs.Iterator.{YieldsFirstBy, item_count};
ghost use Rattle.format.specs.Limits.{max_records};
ghost use Rattle.journal.specs.Journal.{count, whole};
ghost use Rattle.journal.specs.Outcomes.{answer_of};
ghost use Rattle.journal.specs.Orders.{decide};
ghost use Rattle.journal.specs.Calls as calls;
ghost use Rattle.arrays.specs.Recent.{first_tag};
ghost use Rattle.arrays.specs.Arrays.{Ready};
ghost use Rattle.chain.specs.Answers.{first_in, begin_order, walk_from};

use arrays::Pass;
use fields::header;
use format::{Lsn, TransactionId, next_at};
use journal::Reason;
use lists::at;
use scan::records;

// The first record of transaction s; `firsts` has that of each transaction up to 1,024, 0 for none.
fn first_of(firsts: &[u32], s: TransactionId) -> Result<Lsn, Reason>
    ensures { answer_of (λ i. i.0) result ≡ first_in firsts.now s.0 }
{
    let first = at::<TransactionId, _>(firsts, s, 0);
    if first == 0 {
        Err(Reason::Unknown(0))
    } else {
        Ok(Lsn(first))
    }
}

// The first record of transaction s, or the first refusal of 1, 2, 4 to 9 and 12.
fn begin(journal: &[u8], s: TransactionId) -> Result<Lsn, Reason>
    ensures { answer_of (λ i. i.0) result
        ≡ calls.answered (decide (begin_order journal.now s.0)) (first_tag (whole journal.now) s.0) }
{
    let mut pass = Pass::new(header(journal)?);
    records(&mut pass)?;
    first_of(&pass.kept.firsts, s)
}

// A walk along a chain: the records from `next` on.
#[derive(Clone, Copy)]
struct Walk<'j> {
    journal: &'j [u8],
    next: Lsn,
    ghost ready: { Ready journal.now (count journal.now) },
    ghost low: { next.0 ≤ count journal.now },
}

impl Iterator for Walk<'_> {
    type Item = Lsn;

    ghost next_gives = { YieldsFirstBy (λ i. i.0) (λ w. walk_from w.journal.now w.next.0) };

    ghost remaining = { item_count (λ w. walk_from w.journal.now w.next.0) };

    fn next(&mut self) -> Option<Lsn> {
        let i = self.next;
        if i == Lsn(0) {
            return None;
        }
        self.next = next_at(self.journal, i);
        Some(i)
    }
}

// How many records a walk visits.
fn visited(walk: Walk<'_>) -> usize
    ensures steps { result ≡ length (walk_from walk.entry.journal.now walk.entry.next.0) }
    ensures bound { result ≤ max_records }
{
    walk.count()
}

// Writes the record numbers of a walk to the front of a list that has room for them.
fn follow(walk: Walk<'_>, lsns: &mut [u32])
    requires { length (walk_from walk.journal.now walk.next.0) ≤ length lsns.old }
    ensures { lsns.new ≡ calls.written (walk_from walk.entry.journal.now walk.entry.next.0) lsns.old }
{
    for (k, i) in walk.enumerate() {
        lsns[k] = i.0;
    }
}

// Writes the record numbers of one transaction to the front of `lsns`, in order, and answers how many there are (document 01,
// slip).
pub fn chain(journal: &[u8], transaction: TransactionId, lsns: &mut [u32]) -> Result<u32, Reason>
    ensures answer { answer_of (λ n. n) result ≡ (calls.chain journal.now transaction.0 lsns.old).answer }
    ensures lsns { lsns.new ≡ (calls.chain journal.now transaction.0 lsns.old).lsns }
{
    let next = begin(journal, transaction)?;
    let walk = Walk { journal, next };
    let k = visited(walk);
    if lsns.len() < k {
        return Err(Reason::Capacity);
    }
    follow(walk, lsns);
    Ok(k as u32)
}
