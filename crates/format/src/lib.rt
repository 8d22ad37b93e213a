// The journal's bytes: little-endian numbers, signed amounts, and the 20-byte record, read and written.
#![tactic(auto)]

ghost use Rattle.std.specs.Prelude.{◌≡◌, ℕ, ◌+◌, ◌*◌, ◌≤◌, ◌<◌, length, take, drop};
ghost use Rattle.std.proofs.Common.{rules};
ghost use Rattle.lists.specs.Tables.{store};
ghost use Rattle.format.specs.Bytes.{value, bytes, amount, bits};
ghost use Rattle.format.specs.Layout.{record_at, bytes_of, head_with};
ghost use Rattle.format.specs.Limits.{record_bytes, journal_bytes};
ghost use Rattle.format.specs.Kinds.{Decodes};

use lists::Number;

// Document 01's numbers: the bytes of a record, and the highest record count, item count and transaction number.
pub const RECORD_BYTES: usize = 20;

pub const MAX_RECORDS: u32 = 3200;

pub const MAX_ITEMS: u32 = 1024;

pub const MAX_TRANSACTION: u16 = 1024;

// The number behind the last transaction's, where a loop over them ends.
pub const TRANSACTIONS_END: u16 = MAX_TRANSACTION + 1;

// Entries of an array by record number, by item, by transaction number; the bytes of a status list and of the longest journal.
pub const RECORD_SLOTS: usize = MAX_RECORDS as usize + 1;

pub const ITEM_SLOTS: usize = MAX_ITEMS as usize;

pub const TRANSACTION_SLOTS: usize = MAX_TRANSACTION as usize + 1;

pub const STATUS_BYTES: usize = TRANSACTION_SLOTS;

pub const MAX_JOURNAL_BYTES: usize = RECORD_BYTES * RECORD_SLOTS;

// The three numberings of document 01: record numbers (log sequence numbers), sale numbers (transaction ids) and item numbers
// (keys). A record's bytes can hold any number, so that one is within an array is asked where the array is indexed.
#[derive(Clone, Copy, Debug, PartialEq, Eq)]
pub struct Lsn(pub u32);

#[derive(Clone, Copy, Debug, PartialEq, Eq)]
pub struct TransactionId(pub u16);

#[derive(Clone, Copy, Debug, PartialEq, Eq)]
pub struct Key(pub u32);

impl Number for Lsn {
    ghost number = { λ i. i.0 };

    fn index(self) -> usize {
        let Lsn(i) = self;
        i as usize
    }
}

impl Number for TransactionId {
    ghost number = { λ s. s.0 };

    fn index(self) -> usize {
        let TransactionId(s) = self;
        s as usize
    }
}

impl Number for Key {
    ghost number = { λ x. x.0 };

    fn index(self) -> usize {
        let Key(x) = self;
        x as usize
    }
}

// The kinds of records (01, "The journal"). A record holds the code as a byte, which may be of no kind: rule 4 refuses it then. Its
// fields `next` and `item` are numbers that may be of nothing as well, and a `next` of 0 ends a chain.
#[derive(Clone, Copy, Debug, PartialEq, Eq)]
pub enum Kind {
    Read = 1,
    Write = 2,
    Commit = 3,
    Abort = 4,
}

// A code of no kind.
#[derive(Clone, Copy, Debug, PartialEq, Eq)]
pub struct UnknownKind(pub u8);

impl TryFrom<u8> for Kind {
    type Error = UnknownKind;

    ghost try_from_gives = { Decodes };

    fn try_from(code: u8) -> Result<Self, UnknownKind> {
        match code {
            1 => Ok(Kind::Read),
            2 => Ok(Kind::Write),
            3 => Ok(Kind::Commit),
            4 => Ok(Kind::Abort),
            _ => Err(UnknownKind(code)),
        }
    }
}

// The fields of 20 bytes. In record 0, the head, `next` is the record count and `item` the item count.
#[derive(Clone, Copy, Debug, PartialEq, Eq)]
pub struct Record {
    pub kind: u8,
    pub reserved: u8,
    pub transaction: TransactionId,
    pub next: Lsn,
    pub item: Key,
    pub before: i32,
    pub after: i32,
}

impl Record {
    // The head of a journal with these numbers of records and items. Its kind is 0, which is no record's, so `Kind` has no name for it.
    pub fn head(records: u32, items: u32) -> Record
        ensures { result ≡ head_with records items }
    {
        Record {
            kind: 0,
            reserved: 0,
            transaction: TransactionId(0),
            next: Lsn(records),
            item: Key(items),
            before: 0,
            after: 0,
        }
    }
}

// A number that stands in WIDTH bytes, lowest first. std's bytes of a number are an array whose length differs by its type, which the
// trait could not name, so each type has its own `read` and `write`.
pub trait Wire: Copy {
    ghost WIDTH: { ℕ };

    ghost of_bits: { ℕ → Self };

    ghost bits_of: { Self → ℕ };

    const WIDTH: usize;

    // The number in the bytes from `at`.
    fn read(s: &[u8], at: usize) -> Self
        requires { at + WIDTH ≤ length s.now }
        ensures { result ≡ of_bits (value (take WIDTH (drop at s.now))) };

    // Writes the number in the bytes from `at`.
    fn write(self, out: &mut [u8], at: usize)
        requires { at + WIDTH ≤ length out.old }
        ensures { out.new ≡ store at (bytes WIDTH (bits_of self)) out.old };

    ghost some_bytes: { 0 < WIDTH };
}

impl Wire for u16 {
    ghost WIDTH = { 2 };

    ghost of_bits = { λ n. n };

    ghost bits_of = { λ n. n };

    const WIDTH: usize = 2;

    fn read(s: &[u8], at: usize) -> u16 {
        u16::from_le_bytes([s[at], s[at + 1]])
    }

    #[tactic(auto, using(crate::proofs::BytesLaws::written))]
    fn write(self, out: &mut [u8], at: usize) {
        let b = self.to_le_bytes();
        out[at..at + 2].copy_from_slice(&b);
    }

    ghost some_bytes = { Prim.search rules };
}

impl Wire for u32 {
    ghost WIDTH = { 4 };

    ghost of_bits = { λ n. n };

    ghost bits_of = { λ n. n };

    const WIDTH: usize = 4;

    fn read(s: &[u8], at: usize) -> u32 {
        u32::from_le_bytes([s[at], s[at + 1], s[at + 2], s[at + 3]])
    }

    #[tactic(auto, using(crate::proofs::BytesLaws::written))]
    fn write(self, out: &mut [u8], at: usize) {
        let b = self.to_le_bytes();
        out[at..at + 4].copy_from_slice(&b);
    }

    ghost some_bytes = { Prim.search rules };
}

impl Wire for i32 {
    ghost WIDTH = { 4 };

    ghost of_bits = { amount };

    ghost bits_of = { bits };

    const WIDTH: usize = 4;

    fn read(s: &[u8], at: usize) -> i32 {
        u32::read(s, at).cast_signed()
    }

    fn write(self, out: &mut [u8], at: usize) {
        self.cast_unsigned().write(out, at);
    }

    ghost some_bytes = { Prim.search rules };
}

// Record i of a journal. That the bytes reach it is a clause: of which i it is known differs with the caller.
pub fn record_at(journal: &[u8], i: Lsn) -> Record
    requires { journal_bytes i.0 ≤ length journal.now }
    ensures { result ≡ record_at journal.now i.0 }
{
    let at = RECORD_BYTES * i.index();
    Record {
        kind: journal[at],
        reserved: journal[at + 1],
        transaction: TransactionId(u16::read(journal, at + 2)),
        next: Lsn(u32::read(journal, at + 4)),
        item: Key(u32::read(journal, at + 8)),
        before: i32::read(journal, at + 12),
        after: i32::read(journal, at + 16),
    }
}

// The fields of record i, one at a time. A function for any field would take the offset from its caller, who could take another's.
#[tactic(auto, using(crate::proofs::LayoutLaws::kind_at))]
pub fn kind_at(journal: &[u8], i: Lsn) -> u8
    requires { journal_bytes i.0 ≤ length journal.now }
    ensures { result ≡ (record_at journal.now i.0).kind }
{
    journal[RECORD_BYTES * i.index()]
}

#[tactic(auto, using(crate::proofs::LayoutLaws::transaction_at))]
pub fn transaction_at(journal: &[u8], i: Lsn) -> TransactionId
    requires { journal_bytes i.0 ≤ length journal.now }
    ensures { result.0 ≡ (record_at journal.now i.0).transaction.0 }
{
    TransactionId(u16::read(journal, RECORD_BYTES * i.index() + 2))
}

#[tactic(auto, using(crate::proofs::LayoutLaws::next_at))]
pub fn next_at(journal: &[u8], i: Lsn) -> Lsn
    requires { journal_bytes i.0 ≤ length journal.now }
    ensures { result.0 ≡ (record_at journal.now i.0).next.0 }
{
    Lsn(u32::read(journal, RECORD_BYTES * i.index() + 4))
}

// Writes the 20 bytes of a record.
pub fn put_record(out: &mut [u8], r: Record)
    requires { length out.old ≡ record_bytes }
    ensures { out.new ≡ bytes_of r }
{
    out[0] = r.kind;
    out[1] = r.reserved;
    r.transaction.0.write(out, 2);
    r.next.0.write(out, 4);
    r.item.0.write(out, 8);
    r.before.write(out, 12);
    r.after.write(out, 16);
}
