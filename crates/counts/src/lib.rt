// Record counts by kind (document 01, tally): of a journal, and with one record more.
#![tactic(auto)]

ghost use Rattle.std.specs.Prelude.{◌≡◌, ◌≤◌, length};
ghost use Rattle.format.specs.Limits.{journal_bytes, max_records};
ghost use Rattle.journal.specs.Journal.{history};
ghost use Rattle.journal.specs.Refusals.{counts_by_kind};
ghost use Rattle.journal.specs.Calls as calls;
ghost use Rattle.journal.specs.Outcomes.{answer_of};
ghost use Rattle.counts.specs.Answers.{record_counts_of, counts_in, numbers_of, Few};

use fields::header;
use format::{Kind, Lsn, kind_at};
use journal::Reason;

// Record counts by kind.
#[derive(Clone, Copy, Debug, PartialEq, Eq, Default)]
pub struct Counts {
    pub reads: u32,
    pub writes: u32,
    pub commits: u32,
    pub aborts: u32,
}

impl Counts {
    // One more record of a kind, by its byte. Four tests take the place of a match: with it, post took 1.63 times linear Rust's time, and
    // the aim is 1.5 (docs/PERFORMANCE.md).
    #[tactic(auto, unfolding(journal::specs::Calls::raised))]
    pub fn raise(&mut self, kind: u8)
        requires { Few self.old }
        ensures { record_counts_of self.new ≡ calls.raised kind (record_counts_of self.old) }
    {
        self.reads += u32::from(kind == Kind::Read as u8);
        self.writes += u32::from(kind == Kind::Write as u8);
        self.commits += u32::from(kind == Kind::Commit as u8);
        self.aborts += u32::from(kind == Kind::Abort as u8);
    }
}

// Reads, writes, commits and aborts, in this order.
impl From<[u32; 4]> for Counts {
    ghost from_gives = { λ numbers counts. counts ≡ counts_in numbers };

    fn from([reads, writes, commits, aborts]: [u32; 4]) -> Counts {
        Counts {
            reads,
            writes,
            commits,
            aborts,
        }
    }
}

impl From<Counts> for [u32; 4] {
    ghost from_gives = { λ counts numbers. numbers ≡ numbers_of counts };

    fn from(counts: Counts) -> [u32; 4] {
        [counts.reads, counts.writes, counts.commits, counts.aborts]
    }
}

// Records 1 to n by kind, in one pass. No head is looked at, so none is asked.
pub fn count_kinds(journal: &[u8], n: u32) -> Counts
    requires { (journal_bytes n ≤ length journal.now) × (n ≤ max_records) }
    ensures { record_counts_of result ≡ counts_by_kind (history journal.now n) }
{
    let mut counts = Counts::default();
    for i in 0..n {
        counts.raise(kind_at(journal, Lsn(i + 1)));
    }
    counts
}

// The counts of a journal or a copy, for posting to go on with, or refusal 1 or 2. No record is checked.
#[tactic(auto, unfolding(journal::specs::Calls::count_records, journal::specs::Journal::whole))]
pub fn count_records(journal: &[u8]) -> Result<Counts, Reason>
    ensures { answer_of record_counts_of result ≡ calls.count_records journal.now }
{
    let journal = header(journal)?;
    Ok(count_kinds(journal.bytes, journal.records))
}
