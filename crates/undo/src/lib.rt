// Take-back: first everything is decided, then the table, the statuses and the copy are written.
#![tactic(auto)]

ghost use Rattle.std.specs.Prelude.{◌≡◌};
ghost use Rattle.std.proofs.Math.Option.{none};
ghost use Rattle.journal.specs.Inputs.{inputs_of};
ghost use Rattle.journal.specs.Outcomes.{answer_of};
ghost use Rattle.journal.specs.Orders.{decide};
ghost use Rattle.journal.specs.Calls as calls;
ghost use Rattle.examine.specs.Stages.{examined_order};
ghost use Rattle.deliver.specs.Answers.{totals_of};
ghost use Rattle.undo.specs.Undoes.{Undoes};

use arrays::Passed;
use deliver::{UndoTotals, deliver};
use examine::{admit, examine};
use journal::Reason;
use trace::{Records, classify};

// Take-back of a journal that 1 to 11 do not refuse: 13 and 12, then the rest. Its arrays share the stack with those of `examine`.
#[inline(never)]
fn undo_passed(
    passed: &Passed,
    table: &mut [i32],
    bad: &[u16],
    status: &mut [u8],
    out: &mut [u8],
) -> Result<UndoTotals, Reason>
    requires { decide (examined_order (inputs_of passed.now.journal.bytes.now table.old)) ≡ none }
    ensures { Undoes (inputs_of passed.now.journal.bytes.now table.old) bad.now status.old
        out.old (answer_of totals_of result) table.new status.new out.new }
{
    admit(&passed.ends, bad, status)?;
    let records = Records {
        journal: passed.journal.bytes,
        count: passed.journal.records,
    };
    let fates = classify(&records, &passed.ends, bad);
    deliver(
        &records,
        passed.journal.items,
        &passed.ends,
        &fates,
        table,
        status,
        out,
    )
}

// Takes back the listed transactions and those that read from them: the table, the status of each transaction number and the copy,
// at the front of `out`; or a refusal, which writes nothing (document 01, take-back).
// Table, status and `out` are three loans there and in C, so they are three parameters.
pub fn undo(
    journal: &[u8],
    table: &mut [i32],
    bad: &[u16],
    status: &mut [u8],
    out: &mut [u8],
) -> Result<UndoTotals, Reason>
    ensures answer { answer_of totals_of result
        ≡ (calls.undo (inputs_of journal.now table.old) bad.now status.old
        out.old).answer }
    ensures table { table.new
        ≡ (calls.undo (inputs_of journal.now table.old) bad.now status.old
        out.old).table }
    ensures status { status.new
        ≡ (calls.undo (inputs_of journal.now table.old) bad.now status.old
        out.old).status }
    ensures out { out.new
        ≡ (calls.undo (inputs_of journal.now table.old) bad.now status.old
        out.old).out }
{
    // The refusal is handed on in an arm, where an edit can hand on another.
    match examine(journal, table) {
        Ok(passed) => undo_passed(&passed, table, bad, status, out),
        Err(why) => Err(why),
    }
}
