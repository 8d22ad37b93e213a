// Take-back for C: the refusal's number as the result, 0 if the call is accepted; the place or the copy's bytes in `answer`.
// The archive exports the functions of capi alone: the C function stands there and calls this one.
#![tactic(auto)]

ghost use Rattle.journal.specs.Inputs.{inputs_of};
ghost use Rattle.journal.specs.Calls as calls;
ghost use Rattle.certified.specs.Promises.{UndoPromise};
ghost use Rattle.c_undo.specs.Leaves.{UndoLeaves, undo_result_in};

// Undoes the listed transactions and all that read from them (document 01, take-back). `surviving`, `undone` and `aborted` are
// written only where it is accepted. They are three pointers in C, so three parameters. By
// `hand_over`, which has one output, the demand of all four does not prove.
pub fn undo(
    journal: &[u8],
    table: &mut [i32],
    bad: &[u16],
    status: &mut [u8],
    out: &mut [u8],
    surviving: &mut u32,
    undone: &mut u32,
    aborted: &mut u32,
    answer: &mut u64,
) -> u32
    ensures leaves { UndoLeaves
        (calls.undo (inputs_of journal.now table.old) bad.now status.old
        out.old)
        (record { surviving = surviving.old; undone = undone.old; aborted = aborted.old }) result
        answer.new table.new status.new out.new
        (record { surviving = surviving.new; undone = undone.new; aborted = aborted.new }) }
    ensures demands { UndoPromise (inputs_of journal.now table.old) bad.now
        status.old out.old
        (undo_result_in result answer.new table.new status.new out.new
        (record { surviving = surviving.new; undone = undone.new; aborted = aborted.new })) }
{
    match certified::undo(journal, table, bad, status, out) {
        Ok(totals) => {
            *surviving = totals.surviving;
            *undone = totals.undone;
            *aborted = totals.aborted;
            *answer = totals.bytes as u64;
            0
        }
        Err(why) => c_answers::refuse(why, answer),
    }
}
