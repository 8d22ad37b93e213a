// The bytes of the three files, decoded: how much of a file is read, amounts, transactions, the record count.
#![tactic(auto)]

ghost use Rattle.std.specs.Prelude.{◌≡◌, ◌/◌, ◌≤◌, length, take, map};
ghost use Rattle.lists.specs.Tables.{store};
ghost use Rattle.format.specs.Limits.{record_bytes, max_journal_bytes};
ghost use Rattle.journal.specs.Journal.{count};
ghost use Rattle.format.specs.Bytes.{entries};
ghost use Rattle.decode.specs.Files.{read_part};

use format::{Lsn, MAX_JOURNAL_BYTES, RECORD_BYTES, Wire};

// What is read of a file at most.
pub const FILE_BYTES: usize = MAX_JOURNAL_BYTES;

// How many bytes of a file are read: the first 64,020.
#[tactic(auto, using(crate::proofs::FilesLaws::read_of_min))]
pub fn read_of(file: &[u8]) -> usize
    ensures { (result ≤ length file.now) × (result ≤ max_journal_bytes)
        × (take result file.now ≡ read_part file.now) }
{
    file.len().min(MAX_JOURNAL_BYTES)
}

// The numbers of a file, at the front of `list`, and how many they are. A part of a number at the end is left out.
pub fn read_all<T: Wire>(file: &[u8], list: &mut [T]) -> usize
    requires { length file.now / T.WIDTH ≤ length list.old }
    ensures count { result ≡ length file.now / T.WIDTH }
    ensures values { list.new ≡ store 0 (map T.of_bits (entries T.WIDTH file.now)) list.old }
{
    let n = file.len() / T::WIDTH;
    for (i, x) in list[..n].iter_mut().enumerate() {
        *x = T::read(file, T::WIDTH * i);
    }
    n
}

// The record count in a journal's head; 0, if it has none. A report prints it only where take-back is accepted, so where there is a
// head.
#[tactic(auto, unfolding(journal::specs::Journal::count))]
pub fn count_in(journal: &[u8]) -> u64
    ensures { record_bytes ≤ length journal.now → result ≡ count journal.now }
{
    if journal.len() < RECORD_BYTES {
        0
    } else {
        u64::from(format::next_at(journal, Lsn(0)).0)
    }
}
