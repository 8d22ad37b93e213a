// Check: the head, the table's length, the records by rules 4 to 9, the table by rule 10; then the active transactions are counted.
#![tactic(auto)]

ghost use Rattle.std.specs.Prelude.{◌≡◌, OnOk, length};
ghost use Rattle.journal.specs.Inputs.{inputs_of};
ghost use Rattle.journal.specs.Orders.{decide};
ghost use Rattle.journal.specs.Calls as calls;
ghost use Rattle.journal.specs.Outcomes.{answer_of, refusal_in};
ghost use Rattle.validate.specs.Verified.{tabled_order, verified_order};

use arrays::Pass;
use fields::header;
use journal::Reason;
use scan::records;
use settle::{active_count, final_state};

// Refusals 3 to 9 in document 01's order; the head is right. The pass is lent: as a result it would stand on the stack twice. So that it
// is new, and that its journal stays, are clauses here and in `scan::records`.
pub fn verify_records(pass: &mut Pass, table: &[i32]) -> Result<(), Reason>
    requires { pass.old.n ≡ 0 }
    ensures answer { refusal_in result ≡ decide (tabled_order (inputs_of pass.old.journal.bytes.now table.now)) }
    ensures journal { pass.new.journal ≡ pass.old.journal }
    ensures all { OnOk result (pass.new.n ≡ pass.old.journal.records) }
    ensures table { OnOk result (length table.now ≡ pass.old.journal.items) }
{
    if table.len() != pass.journal.items as usize {
        return Err(Reason::TableLength);
    }
    records(pass)
}

// Refusals 3 to 10.
pub fn verify_opened(pass: &mut Pass, table: &[i32]) -> Result<(), Reason>
    requires { pass.old.n ≡ 0 }
    ensures answer { refusal_in result ≡ decide (verified_order (inputs_of pass.old.journal.bytes.now table.now)) }
    ensures journal { pass.new.journal ≡ pass.old.journal }
    ensures all { OnOk result (pass.new.n ≡ pass.old.journal.records) }
{
    verify_records(pass, table)?;
    final_state(&pass.seen().amounts(), table)
}

// How many transactions are active, or the first refusal of 1 to 10 in document 01's order.
pub fn check(journal: &[u8], table: &[i32]) -> Result<u32, Reason>
    ensures { answer_of (λ n. n) result ≡ calls.check (inputs_of journal.now table.now) }
{
    let mut pass = Pass::new(header(journal)?);
    // The refusal is handed on in an arm, where an edit can hand on another.
    match verify_opened(&mut pass, table) {
        Ok(()) => Ok(active_count(&pass.kept.ends, &pass.kept.firsts)),
        Err(why) => Err(why),
    }
}
