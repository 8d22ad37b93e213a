// The next record, entered in the working arrays.
#![tactic(auto)]

ghost use Rattle.std.specs.Prelude.{◌≡◌, false, cond, ◌+◌, ◌<◌, length, get_or, set};
ghost use Rattle.format.specs.Layout.{record_at};
ghost use Rattle.format.specs.Limits.{max_records};
ghost use Rattle.journal.specs.Journal.{items};
ghost use Rattle.journal.specs.Refusals.{malformed};
ghost use Rattle.arrays.specs.Arrays.{Ready, Holds};
ghost use Rattle.note.specs.Firsts.{first_put};

use arrays::{End, Kept, Writers, last_writer};
use format::{Key, Kind, Lsn, Record, TransactionId};
use lists::Number;

// Record i is the first of transaction s, if it has none.
fn note_first(firsts: &mut [u32], s: TransactionId, i: Lsn)
    requires { s.0 < length firsts.old }
    ensures { firsts.new ≡ first_put firsts.old s.0 i.0 }
{
    let at = TransactionId::index(s);
    if firsts[at] == 0 {
        firsts[at] = i.0;
    }
}

// Record i reads item x.
fn note_read(reads: &mut [u32], links: &mut [u32], x: Key, i: Lsn)
    requires { (x.0 < length reads.old) × (i.0 < length links.old) }
    ensures { (reads.new ≡ set reads.old x.0 i.0)
        × (links.new ≡ set links.old i.0 (get_or reads.old x.0 0)) }
{
    links[Lsn::index(i)] = reads[Key::index(x)];
    reads[Key::index(x)] = i.0;
}

// Record i writes item x; `again` if its transaction wrote it last before.
fn note_write(writes: &mut [u32], bases: &mut [u32], reads: &mut [u32], x: Key, i: Lsn, again: bool)
    requires { (x.0 < length writes.old) × (x.0 < length bases.old) × (x.0 < length reads.old) }
    ensures { (writes.new ≡ set writes.old x.0 i.0)
        × (bases.new ≡ cond again bases.old (set bases.old x.0 i.0))
        × (reads.new ≡ set reads.old x.0 0) }
{
    let item = Key::index(x);
    writes[item] = i.0;
    reads[item] = 0;
    if !again {
        bases[item] = i.0;
    }
}

// Record n + 1, after n records that passed; it is not malformed. Journal and n stand beside the arrays: together they would be a `Pass`,
// which knows that record n + 1 passes too, once it is entered.
pub fn note(journal: &[u8], n: u32, r: Record, kept: &mut Kept)
    requires { Ready journal.now n × (n < max_records) × Holds journal.now n kept.old
        × (malformed (items journal.now) r ≡ false) × (r ≡ record_at journal.now (n + 1)) }
    ensures { Holds journal.now (n + 1) kept.new }
{
    let i = Lsn(n + 1);
    let s = r.transaction;
    // Told before an array changes, and on the byte: a match would be the one below once more.
    let writers = Writers {
        journal,
        n,
        ends: &kept.ends,
        writes: &kept.writes,
    };
    let again = r.kind == Kind::Write as u8 && last_writer(&writers, r.item, s).own;
    note_first(&mut kept.firsts, s, i);
    match Kind::try_from(r.kind) {
        Ok(Kind::Read) => note_read(&mut kept.reads, &mut kept.links, r.item, i),
        Ok(Kind::Write) => note_write(
            &mut kept.writes,
            &mut kept.bases,
            &mut kept.reads,
            r.item,
            i,
            again,
        ),
        Ok(Kind::Commit) => kept.ends[TransactionId::index(s)] = End::Committed,
        Ok(Kind::Abort) => kept.ends[TransactionId::index(s)] = End::Aborted,
        Err(_) => {}
    }
}
