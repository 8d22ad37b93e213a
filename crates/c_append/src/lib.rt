// Post for C: the refusal's number as the result, 0 if the call is accepted; the refusal's place in `answer`.
// The archive exports the functions of capi alone: the C function stands there and calls this one.
#![tactic(auto)]

ghost use Rattle.journal.specs.Inputs.{inputs_of};
ghost use Rattle.journal.specs.Calls as calls;
ghost use Rattle.certified.specs.Promises.{AppendPromise};
ghost use Rattle.c_answers.specs.Results.{record_counts_in};
ghost use Rattle.c_append.specs.Leaves.{AppendLeaves, appended_in};

use counts::Counts;
use format::{Key, TransactionId};

// Adds one record (document 01, post). `counts` are reads, writes, commits and aborts.
pub fn append(
    journal: &mut [u8],
    table: &mut [i32],
    counts: &mut [u32; 4],
    kind: u8,
    transaction: u16,
    item: u32,
    after: i32,
    answer: &mut u64,
) -> u32
    ensures leaves { AppendLeaves
        (calls.append (inputs_of journal.old table.old)
        (record_counts_in counts.old) kind transaction item after) counts.old result answer.new
        journal.new table.new counts.new }
    ensures demands { AppendPromise (inputs_of journal.old table.old)
        (record_counts_in counts.old) (record { kind = kind; tx = transaction; item = item; after = after })
        (appended_in result answer.new journal.new table.new counts.new) }
{
    let mut lent = Counts::from(*counts);
    let appended = certified::append(
        &mut lent,
        journal,
        table,
        kind,
        TransactionId(transaction),
        Key(item),
        after,
    );
    if let Ok(()) = appended {
        *counts = lent.into();
    }
    c_answers::hand_over(appended.map(|()| 0), answer)
}
