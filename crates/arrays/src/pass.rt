// One pass over the records of a journal, and what it leaves.
#![tactic(auto)]

ghost use Rattle.std.specs.Prelude.{◌≡◌, ◌≤◌};
ghost use Rattle.arrays.specs.Ends.{codes};
ghost use Rattle.arrays.specs.Arrays.{Ready, NoBlindTo, IsEnds, Holds};

use crate::end::End;
use crate::kept::{Kept, Seen, Touches, Writers};
use fields::Journal;
use format::{ITEM_SLOTS, RECORD_SLOTS, TRANSACTION_SLOTS};

// Records 1 to n have passed rules 4 to 9; what is kept of them. Whether these are all, n says, so that is a clause where it is asked.
#[derive(Drop)]
pub struct Pass<'j> {
    pub journal: Journal<'j>,
    pub n: u32,
    pub kept: Kept,
    pub ghost within: { n ≤ journal.records },
    pub ghost ready: { Ready journal.bytes.now n },
    pub ghost not_blind: { NoBlindTo journal.bytes.now n },
    pub ghost state: { Holds journal.bytes.now n kept },
}

impl<'j> Pass<'j> {
    // Before the first record.
    pub fn new(journal: Journal<'j>) -> Pass<'j>
        ensures journal { result.journal ≡ journal.entry }
        ensures n { result.n ≡ 0 }
    {
        Pass {
            journal,
            n: 0,
            kept: Kept {
                ends: [End::Open; TRANSACTION_SLOTS],
                firsts: [0; TRANSACTION_SLOTS],
                writes: [0; ITEM_SLOTS],
                bases: [0; ITEM_SLOTS],
                reads: [0; ITEM_SLOTS],
                links: [0; RECORD_SLOTS],
            },
        }
    }

    // What decides the next record.
    pub fn seen(&self) -> Seen<'_>
        ensures journal { result.touches.writers.journal.now ≡ self.now.journal.bytes.now }
        ensures n { result.touches.writers.n ≡ self.now.n }
    {
        Seen {
            touches: Touches {
                writers: Writers {
                    journal: self.journal.bytes,
                    n: self.n,
                    ends: &self.kept.ends,
                    writes: &self.kept.writes,
                },
                reads: &self.kept.reads,
                links: &self.kept.links,
            },
            bases: &self.kept.bases,
        }
    }
}

// A journal all of whose records passed, with the end of each transaction.
#[derive(Clone, Copy)]
pub struct Passed<'j> {
    pub journal: Journal<'j>,
    pub ends: [End; TRANSACTION_SLOTS],
    pub ghost ready: { Ready journal.bytes.now journal.records },
    pub ghost ended: { IsEnds journal.bytes.now journal.records (codes ends) },
}
