// The C interface, which has no `Result`: slices as pointer and length, the refusal's number as the result. The archive has the functions of this crate
// alone; each calls the one that does the work. These stand in crates of their own, since each must-fail edit checks its crate anew, and
// the gate has to stay short.
#![tactic(auto)]

ghost use Rattle.std.specs.Prelude.{◌≡◌};
ghost use Rattle.journal.specs.Inputs.{inputs_of};
ghost use Rattle.journal.specs.Calls as calls;
ghost use Rattle.c_answers.specs.Results.{result_of, answer_with, loan_with, answer_in, record_counts_in, count_list};
ghost use Rattle.c_calls.specs.Leaves.{started_in, walked_in, counted_in};
ghost use Rattle.c_append.specs.Leaves.{AppendLeaves, appended_in};
ghost use Rattle.c_undo.specs.Leaves.{UndoLeaves, undo_result_in};
ghost use Rattle.certified.specs.Promises.{StartPromise, AppendPromise, CheckPromise, ChainPromise, CountPromise, UndoPromise};

// The interface's number, in the name too: it rises when a signature changes, so that a program does not link with another
// interface than it was written for.
#[unsafe(no_mangle)]
pub extern "C" fn journal_interface_1() -> u32
    ensures { result ≡ 1 }
{
    1
}

// Starts a journal of this many items.
#[unsafe(no_mangle)]
pub extern "C" fn journal_start(journal: &mut [u8], items: u32, answer: &mut u64) -> u32
    ensures result { result ≡ result_of (calls.start journal.old items).answer }
    ensures answer { answer.new ≡ answer_with (λ a. 0) (calls.start journal.old items).answer }
    ensures journal { journal.new ≡ (calls.start journal.old items).journal }
    ensures demands { StartPromise journal.old items (started_in result answer.new journal.new) }
{
    c_calls::start(journal, items, answer)
}

// Adds one record (document 01, post). `counts` are reads, writes, commits and aborts.
#[unsafe(no_mangle)]
pub extern "C" fn journal_append(
    journal: &mut [u8],
    table: &mut [i32],
    counts: &mut [u32; 4],
    kind: u8,
    transaction: u16,
    item: u32,
    after: i32,
    answer: &mut u64,
) -> u32
    ensures leaves { AppendLeaves
        (calls.append (inputs_of journal.old table.old)
        (record_counts_in counts.old) kind transaction item after) counts.old result answer.new
        journal.new table.new counts.new }
    ensures demands { AppendPromise (inputs_of journal.old table.old)
        (record_counts_in counts.old) (record { kind = kind; tx = transaction; item = item; after = after })
        (appended_in result answer.new journal.new table.new counts.new) }
{
    c_append::append(
        journal,
        table,
        counts,
        kind,
        transaction,
        item,
        after,
        answer,
    )
}

// How many transactions are active in a journal that passes with its table.
#[unsafe(no_mangle)]
pub extern "C" fn journal_check(journal: &[u8], table: &[i32], answer: &mut u64) -> u32
    ensures result { result ≡ result_of (calls.check (inputs_of journal.now table.now)) }
    ensures answer { answer.new
        ≡ answer_with (λ n. n) (calls.check (inputs_of journal.now table.now)) }
    ensures demands { CheckPromise (inputs_of journal.now table.now)
        (answer_in (λ n. n) result answer.new) }
{
    c_calls::check(journal, table, answer)
}

// Writes the record numbers of one transaction to the front of `lsns`.
#[unsafe(no_mangle)]
pub extern "C" fn journal_chain(
    journal: &[u8],
    transaction: u16,
    lsns: &mut [u32],
    answer: &mut u64,
) -> u32
    ensures result { result ≡ result_of (calls.chain journal.now transaction lsns.old).answer }
    ensures answer { answer.new
        ≡ answer_with (λ n. n) (calls.chain journal.now transaction lsns.old).answer }
    ensures lsns { lsns.new ≡ (calls.chain journal.now transaction lsns.old).lsns }
    ensures demands { ChainPromise journal.now transaction lsns.old
        (walked_in result answer.new lsns.new) }
{
    c_calls::chain(journal, transaction, lsns, answer)
}

// The record counts of a journal or a copy, for posting to go on with: reads, writes, commits and aborts. They are written only
// where the call is accepted.
#[unsafe(no_mangle)]
pub extern "C" fn journal_count_records(
    journal: &[u8],
    counts: &mut [u32; 4],
    answer: &mut u64,
) -> u32
    ensures result { result ≡ result_of (calls.count_records journal.now) }
    ensures answer { answer.new ≡ answer_with (λ c. 0) (calls.count_records journal.now) }
    ensures counts { counts.new
        ≡ loan_with count_list counts.old (calls.count_records journal.now) }
    ensures demands { CountPromise journal.now (counted_in result answer.new counts.new) }
{
    c_calls::count_records(journal, counts, answer)
}

// Undoes the listed transactions and all that read from them (document 01, take-back). `surviving`, `undone` and `aborted` are
// written only where it is accepted.
#[unsafe(no_mangle)]
pub extern "C" fn journal_undo(
    journal: &[u8],
    table: &mut [i32],
    bad: &[u16],
    status: &mut [u8],
    out: &mut [u8],
    surviving: &mut u32,
    undone: &mut u32,
    aborted: &mut u32,
    answer: &mut u64,
) -> u32
    ensures leaves { UndoLeaves
        (calls.undo (inputs_of journal.now table.old) bad.now status.old
        out.old)
        (record { surviving = surviving.old; undone = undone.old; aborted = aborted.old }) result
        answer.new table.new status.new out.new
        (record { surviving = surviving.new; undone = undone.new; aborted = aborted.new }) }
    ensures demands { UndoPromise (inputs_of journal.now table.old) bad.now
        status.old out.old
        (undo_result_in result answer.new table.new status.new out.new
        (record { surviving = surviving.new; undone = undone.new; aborted = aborted.new })) }
{
    c_undo::undo(
        journal, table, bad, status, out, surviving, undone, aborted, answer,
    )
}
