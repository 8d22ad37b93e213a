// Start, check, slip and counting for C: the refusal's number as the result, 0 if the call is accepted; the place or the
// value in `answer`. The archive exports the functions of capi alone: the C functions stand there and call these.
#![tactic(auto)]

ghost use Rattle.std.specs.Prelude.{◌≡◌};
ghost use Rattle.journal.specs.Inputs.{inputs_of};
ghost use Rattle.journal.specs.Calls as calls;
ghost use Rattle.certified.specs.Promises.{StartPromise, CheckPromise, ChainPromise, CountPromise};
ghost use Rattle.c_answers.specs.Results.{result_of, answer_with, loan_with, answer_in, count_list};
ghost use Rattle.c_calls.specs.Leaves.{started_in, walked_in, counted_in};

use format::TransactionId;

// Starts a journal of this many items.
pub fn start(journal: &mut [u8], items: u32, answer: &mut u64) -> u32
    ensures result { result ≡ result_of (calls.start journal.old items).answer }
    ensures answer { answer.new ≡ answer_with (λ a. 0) (calls.start journal.old items).answer }
    ensures journal { journal.new ≡ (calls.start journal.old items).journal }
    ensures demands { StartPromise journal.old items (started_in result answer.new journal.new) }
{
    let started = certified::start(journal, items);
    c_answers::hand_over(started.map(|()| 0), answer)
}

// How many transactions are active in a journal that passes with its table.
pub fn check(journal: &[u8], table: &[i32], answer: &mut u64) -> u32
    ensures result { result ≡ result_of (calls.check (inputs_of journal.now table.now)) }
    ensures answer { answer.new
        ≡ answer_with (λ n. n) (calls.check (inputs_of journal.now table.now)) }
    ensures demands { CheckPromise (inputs_of journal.now table.now)
        (answer_in (λ n. n) result answer.new) }
{
    let checked = certified::check(journal, table);
    c_answers::hand_over(checked.map(u64::from), answer)
}

// Writes the record numbers of one transaction to the front of `lsns`.
pub fn chain(journal: &[u8], transaction: u16, lsns: &mut [u32], answer: &mut u64) -> u32
    ensures result { result ≡ result_of (calls.chain journal.now transaction lsns.old).answer }
    ensures answer { answer.new
        ≡ answer_with (λ n. n) (calls.chain journal.now transaction lsns.old).answer }
    ensures lsns { lsns.new ≡ (calls.chain journal.now transaction lsns.old).lsns }
    ensures demands { ChainPromise journal.now transaction lsns.old
        (walked_in result answer.new lsns.new) }
{
    let walked = certified::chain(journal, TransactionId(transaction), lsns);
    c_answers::hand_over(walked.map(u64::from), answer)
}

// The record counts of a journal or a copy, for posting to go on with: reads, writes, commits and aborts. They are written only
// where the call is accepted.
pub fn count_records(journal: &[u8], counts: &mut [u32; 4], answer: &mut u64) -> u32
    ensures result { result ≡ result_of (calls.count_records journal.now) }
    ensures answer { answer.new ≡ answer_with (λ c. 0) (calls.count_records journal.now) }
    ensures counts { counts.new
        ≡ loan_with count_list counts.old (calls.count_records journal.now) }
    ensures demands { CountPromise journal.now (counted_in result answer.new counts.new) }
{
    let counted = certified::count_records(journal);
    if let Ok(found) = counted {
        *counts = found.into();
    }
    c_answers::hand_over(counted.map(|_| 0), answer)
}
