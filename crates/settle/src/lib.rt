// What is left once the records passed: rule 10, item by item, and the active transactions.
#![tactic(auto)]

ghost use Rattle.std.specs.Prelude.{◌≡◌, not, ◌<◌, length, map};
ghost use Rattle.lists.specs.Tables.{count_if};
ghost use Rattle.format.specs.Limits.{max_items, max_transaction, transaction_slots};
ghost use Rattle.journal.specs.Inputs.{inputs_of};
ghost use Rattle.journal.specs.Journal.{count, items};
ghost use Rattle.journal.specs.Refusals.{unsettled};
ghost use Rattle.journal.specs.Orders.{decide, settled_order};
ghost use Rattle.journal.specs.Outcomes.{refusal_in};
ghost use Rattle.settle.specs.Active.{active_in};

use arrays::{Amounts, End};
use format::{Key, TRANSACTIONS_END, TransactionId};
use journal::Reason;
use lists::{Code, Number};
use rules::matches_standing;

// Rule 10 at item x: it is unwritten, or its standing amount is the table's.
fn settled(amounts: &Amounts, table: &[i32], x: Key) -> bool
    requires { (amounts.now.writers.n ≡ count amounts.now.writers.journal.now) × (x.0 < max_items) × (x.0 < length table.now) }
    ensures { result ≡ not (unsettled amounts.now.writers.journal.now table.now x.0) }
{
    matches_standing(amounts, x, table[Key::index(x)])
}

// Rule 10, lowest item first, where all records passed. The table is lent as a slice: 3 has refused one of another length.
pub fn final_state(amounts: &Amounts, table: &[i32]) -> Result<(), Reason>
    requires { (amounts.now.writers.n ≡ count amounts.now.writers.journal.now)
        × (length table.now ≡ items amounts.now.writers.journal.now) }
    ensures { refusal_in result ≡ decide (settled_order (inputs_of amounts.now.writers.journal.now table.now)) }
{
    for x in 0..table.len() as u32 {
        if !settled(amounts, table, Key(x)) {
            return Err(Reason::FinalState(Key(x)));
        }
    }
    Ok(())
}

// Transaction s has a record and no end. Both are read, so that `active_count` compiles to no branch.
pub fn is_active<E: Code>(ends: &[E], firsts: &[u32], s: TransactionId) -> bool
    requires { (s.0 < length ends.now) × (s.0 < length firsts.now) }
    ensures { result ≡ active_in (map E.code ends.now) firsts.now s.0 }
{
    let at = TransactionId::index(s);
    (firsts[at] != 0) & (ends[at].code() == End::Open as u8)
}

// How many transactions are active.
pub fn active_count<E: Code>(ends: &[E], firsts: &[u32]) -> u32
    requires { (length ends.now ≡ transaction_slots) × (length firsts.now ≡ transaction_slots) }
    ensures { result ≡ count_if (active_in (map E.code ends.now) firsts.now) 1 max_transaction }
{
    let mut count = 0;
    for s in 1..TRANSACTIONS_END {
        count += u32::from(is_active(ends, firsts, TransactionId(s)));
    }
    count
}
