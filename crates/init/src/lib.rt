// Start: a head with no records, at the front of any buffer.
#![tactic(auto)]

ghost use Rattle.std.specs.Prelude.{◌≡◌};
ghost use Rattle.journal.specs.Outcomes.{answer_of};
ghost use Rattle.journal.specs.Calls as calls;

use format::{MAX_ITEMS, RECORD_BYTES, Record};
use journal::Reason;

// Writes the head of a journal with no records and this many items (document 01, start). Refused, with nothing written: 1 for a
// buffer of fewer than 20 bytes, then 2 unless there are 1 to 1,024 items.
pub fn start(journal: &mut [u8], items: u32) -> Result<(), Reason>
    ensures answer { answer_of (λ u. u) result ≡ (calls.start journal.old items).answer }
    ensures journal { journal.new ≡ (calls.start journal.old items).journal }
{
    if journal.len() < RECORD_BYTES {
        return Err(Reason::Truncated);
    }
    if items < 1 || MAX_ITEMS < items {
        return Err(Reason::Header);
    }
    format::put_record(&mut journal[0..RECORD_BYTES], Record::head(0, items));
    Ok(())
}
