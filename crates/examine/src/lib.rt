// What is tried before transactions are taken back: refusals 1 to 11 of the journal and the table, 13 and 12 of the other loans.
#![tactic(auto)]

ghost use Rattle.std.specs.Prelude.{◌≡◌, IfOk, map};
ghost use Rattle.model.specs.History.{active};
ghost use Rattle.journal.specs.Inputs.{inputs_of};
ghost use Rattle.journal.specs.Journal.{history};
ghost use Rattle.journal.specs.Orders.{active_order, known_order, decide};
ghost use Rattle.journal.specs.Calls.{answered};
ghost use Rattle.journal.specs.Outcomes.{answer_of, refusal_in};
ghost use Rattle.fields.specs.Answers.{size_of};
ghost use Rattle.fields.specs.Heads.{size};
ghost use Rattle.examine.specs.Stages.{unknown_in, admit_order, examined_order, unsettled_order};

use arrays::{End, Pass, Passed};
use fields::header;
use format::{STATUS_BYTES, TRANSACTIONS_END, TransactionId};
use journal::Reason;
use lists::{Code, code_at};
use settle::is_active;
use validate::{verify_opened, verify_records};

// Refusal 11: the lowest transaction that is active.
fn finished(pass: &Pass) -> Result<(), Reason>
    ensures { refusal_in result ≡ decide (active_order (active (history pass.now.journal.bytes.now pass.now.n))) }
{
    for s in 1..TRANSACTIONS_END {
        if is_active(&pass.kept.ends, &pass.kept.firsts, TransactionId(s)) {
            return Err(Reason::Active(TransactionId(s)));
        }
    }
    Ok(())
}

// The journal and the ends of its transactions, or refusal 11; all records passed.
fn closed<'j>(pass: &Pass<'j>) -> Result<Passed<'j>, Reason>
    requires { pass.now.n ≡ pass.now.journal.records }
    ensures answer { refusal_in result ≡ decide (active_order (active (history pass.now.journal.bytes.now pass.now.n))) }
    ensures journal { IfOk result (λ p. p.journal ≡ pass.now.journal) }
{
    finished(pass)?;
    Ok(Passed {
        journal: pass.journal,
        ends: pass.kept.ends,
    })
}

// Refusals 1 to 11, or the journal and the ends of its transactions. The working arrays leave the stack with it.
#[inline(never)]
pub fn examine<'j>(journal: &'j [u8], table: &[i32]) -> Result<Passed<'j>, Reason>
    ensures answer { answer_of (λ p. size p.journal) result
        ≡ answered (decide (examined_order (inputs_of journal.now table.now))) (size_of journal.now) }
    ensures bytes { IfOk result (λ p. p.journal.bytes.now ≡ journal.now) }
{
    let mut pass = Pass::new(header(journal)?);
    verify_opened(&mut pass, table)?;
    closed(&pass)
}

// The same without refusal 10: the amounts of the table may be any.
// In one function with `examine`, rule 10 would be a flag.
pub fn examine_unsettled<'j>(journal: &'j [u8], table: &[i32]) -> Result<Passed<'j>, Reason>
    ensures answer { answer_of (λ p. size p.journal) result
        ≡ answered (decide (unsettled_order (inputs_of journal.now table.now))) (size_of journal.now) }
    ensures bytes { IfOk result (λ p. p.journal.bytes.now ≡ journal.now) }
{
    let mut pass = Pass::new(header(journal)?);
    verify_records(&mut pass, table)?;
    closed(&pass)
}

// Refusal 12: the lowest position whose number is no committed transaction's.
#[tactic(auto, using(crate::proofs::StagesLaws::known_refused))]
fn known<E: Code>(ends: &[E], bad: &[u16]) -> Result<(), Reason>
    ensures { refusal_in result ≡ decide (known_order (unknown_in (map E.code ends.now)) bad.now) }
{
    for (k, s) in bad.iter().enumerate() {
        let end = code_at::<TransactionId, _>(ends, TransactionId(*s));
        if end != End::Committed as u8 {
            return Err(Reason::Unknown(k));
        }
    }
    Ok(())
}

// Refusal 13, then 12.
pub fn admit<E: Code>(ends: &[E], bad: &[u16], status: &[u8]) -> Result<(), Reason>
    ensures { refusal_in result ≡ decide (admit_order (map E.code ends.now) bad.now status.now) }
{
    if status.len() != STATUS_BYTES {
        return Err(Reason::StatusLength);
    }
    known(ends, bad)
}
