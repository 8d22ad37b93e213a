// What is kept of the records of a journal, and views of parts of it.
#![tactic(auto)]

ghost use Rattle.std.specs.Prelude.{◌≡◌};
ghost use Rattle.arrays.specs.Ends.{codes};
ghost use Rattle.arrays.specs.Arrays.{Ready, NoBlindTo, IsEnds, IsWrites, IsBases, IsReads, Linked};

use crate::end::End;
use format::{ITEM_SLOTS, RECORD_SLOTS, TRANSACTION_SLOTS};

// Of each transaction its end and its first record; of each item its last write, the first write by the same transaction and the newest
// read since; of each read the read before it. 0 is none: an `Option` would take twice the bytes, past the stack that
// bindings/c/journal.h promises. Without a heap there are arrays for the most that a journal has, and a chain of reads is linked by
// record numbers; the arrays stand apart, since each step reads one or two.
#[derive(Drop)]
pub struct Kept {
    pub ends: [End; TRANSACTION_SLOTS],
    pub firsts: [u32; TRANSACTION_SLOTS],
    pub writes: [u32; ITEM_SLOTS],
    pub bases: [u32; ITEM_SLOTS],
    pub reads: [u32; ITEM_SLOTS],
    pub links: [u32; RECORD_SLOTS],
}

// Who wrote each item last, in records 1 to n, which passed rules 4 to 7 and 9.
#[derive(Clone, Copy)]
pub struct Writers<'a> {
    pub journal: &'a [u8],
    pub n: u32,
    pub ends: &'a [End; TRANSACTION_SLOTS],
    pub writes: &'a [u32; ITEM_SLOTS],
    pub ghost ready: { Ready journal.now n },
    pub ghost ended: { IsEnds journal.now n (codes ends.now) },
    pub ghost written: { IsWrites journal.now n writes.now },
}

// And which record has the amount from before the last writer: what decides rules 9 and 10.
#[derive(Clone, Copy)]
pub struct Amounts<'a> {
    pub writers: Writers<'a>,
    pub bases: &'a [u32; ITEM_SLOTS],
    pub ghost based: { IsBases writers.journal.now writers.n bases.now },
}

// The last writers, and who has read each item since, where the records passed rule 8 too: what decides rules 6 to 8.
#[derive(Clone, Copy)]
pub struct Touches<'a> {
    pub writers: Writers<'a>,
    pub reads: &'a [u32; ITEM_SLOTS],
    pub links: &'a [u32; RECORD_SLOTS],
    pub ghost not_blind: { NoBlindTo writers.journal.now writers.n },
    pub ghost last_read: { IsReads writers.journal.now writers.n reads.now },
    pub ghost linked: { Linked writers.journal.now writers.n links.now },
}

// What decides rules 6 to 9.
#[derive(Clone, Copy)]
pub struct Seen<'a> {
    pub touches: Touches<'a>,
    pub bases: &'a [u32; ITEM_SLOTS],
    pub ghost based: { IsBases touches.writers.journal.now touches.writers.n bases.now },
}

impl<'a> Seen<'a> {
    pub fn amounts(&self) -> Amounts<'a>
        ensures writers { result.writers ≡ self.now.touches.writers }
    {
        Amounts {
            writers: self.touches.writers,
            bases: self.bases,
        }
    }
}
