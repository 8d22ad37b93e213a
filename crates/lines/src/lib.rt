// The lines of take-back's answer, written into a buffer.
#![tactic(auto)]

ghost use Rattle.std.specs.Prelude.{◌≡◌, ◌-◌, ◌/◌, ◌<◌, length, ⊤};
ghost use Rattle.format.specs.Limits.{record_bytes, status_bytes};
ghost use Rattle.journal.specs.Reasons.{number_of, place_of};
ghost use Rattle.text.specs.Lines.{refused_line};
ghost use Rattle.text.specs.Pages.{HasRoom, Writes};
ghost use Rattle.lines.specs.AnswerLines.{undone_in, undone_lines, change_of, change_lines};

use deliver::UndoTotals;
use format::{RECORD_BYTES, TRANSACTIONS_END, TransactionId};
use journal::Reason;
use lists::Number;
use std::alloc::AllocError;
use text::{Page, Sum};
use trace::Fate;

// The line of transaction s, if its status is 2 (document 01: mark 2, taken back).
// The list is lent as bytes, document 01's format, so the mark is told on the byte.
#[tactic(auto, unfolding(crate::specs::AnswerLines::undone_in), using(crate::proofs::AnswerLinesLaws::line_steps))]
fn put_undone_in(page: &mut Page, status: &[u8], s: TransactionId)
    requires known { s.0 < length status.now }
    requires room { HasRoom page.old (undone_in status.now s.0) }
    ensures { Writes page.old (undone_in status.now s.0) page.new }
{
    if status[TransactionId::index(s)] == Fate::Undone as u8 {
        page.put_undone(s.0.into());
    }
}

// The lines of all transactions with status 2.
fn put_all_undone(page: &mut Page, status: &[u8])
    requires known { length status.now ≡ status_bytes }
    requires room { HasRoom page.old (undone_lines status.now) }
    ensures { Writes page.old (undone_lines status.now) page.new }
{
    for s in 1..TRANSACTIONS_END {
        put_undone_in(page, status, TransactionId(s));
    }
}

// The line of item x, if its amount is another.
#[tactic(auto, unfolding(crate::specs::AnswerLines::change_of), using(crate::proofs::AnswerLinesLaws::line_steps))]
fn put_change_of(page: &mut Page, x: usize, old: i32, new: i32)
    requires { HasRoom page.old (change_of x old new) }
    ensures { Writes page.old (change_of x old new) page.new }
{
    if old != new {
        page.put_change(x as u64, old, new);
    }
}

// The lines of all items whose amount is another.
fn put_changes(page: &mut Page, old: &[i32], new: &[i32])
    requires same { length old.now ≡ length new.now }
    requires room { HasRoom page.old (change_lines old.now new.now) }
    ensures { Writes page.old (change_lines old.now new.now) page.new }
{
    for (x, before) in old.iter().enumerate() {
        put_change_of(page, x, *before, new[x]);
    }
}

// The copy's records, by its bytes.
fn copied_records(bytes: usize) -> usize
    ensures { result ≡ bytes / record_bytes - 1 }
{
    (bytes / RECORD_BYTES).saturating_sub(1)
}

// The line of a refused take-back.
fn put_reason(page: &mut Page, why: Reason)
    requires { HasRoom page.old (refused_line (number_of why) (place_of why)) }
    ensures { Writes page.old (refused_line (number_of why) (place_of why)) page.new }
{
    page.put_refused(why.number().into(), why.place());
}

// What a report is made of beside take-back's answer: the journal's record count, the statuses, the table before and after, and the
// copy's net change, where there is a copy.
pub struct Report<'a, S = i64> {
    pub records: u64,
    pub status: &'a [u8],
    pub old: &'a [i32],
    pub new: &'a [i32],
    pub sum: S,
    ghost marks: { length status.now ≡ status_bytes },
    ghost tables: { length old.now ≡ length new.now },
}

impl<S: Copy> Clone for Report<'_, S> {
    ghost is_clone = { λ x y. y ≡ x };

    ghost is_infallible = { λ _. ⊤ };

    fn clone(&self) -> Result<Self, AllocError> {
        Ok(Report {
            records: self.records,
            status: self.status,
            old: self.old,
            new: self.new,
            sum: self.sum,
        })
    }
}

impl<S: Copy> Copy for Report<'_, S> {}

impl<S: Sum> Report<'_, S> {
    ghost use Rattle.std.specs.Prelude.{◌≡◌};
    ghost use Rattle.journal.specs.Calls.{accepted};
    ghost use Rattle.text.specs.Pages.{HasRoom, Writes};
    ghost use Rattle.text.specs.Puts.{Fits, Put};
    ghost use Rattle.journal.specs.Outcomes.{answer_of};
    ghost use Rattle.deliver.specs.Answers.{totals_of};
    ghost use Rattle.lines.specs.Reports.{report_lines};

    // The lines of an accepted take-back.
    fn put_accepted(&self, page: &mut Page, totals: UndoTotals)
        requires { HasRoom page.old (report_lines S.digits self.now (accepted (totals_of totals))) }
        ensures { Writes page.old (report_lines S.digits self.now (accepted (totals_of totals))) page.new }
    {
        page.put_counts(self.records, copied_records(totals.bytes) as u64);
        put_all_undone(page, self.status);
        put_changes(page, self.old, self.new);
        page.put_sum(self.sum);
        page.put_end(
            u64::from(totals.surviving),
            u64::from(totals.undone),
            u64::from(totals.aborted),
        );
    }

    // The lines of take-back's answer.
    fn put_lines(&self, page: &mut Page, answer: Result<UndoTotals, Reason>)
        requires { HasRoom page.old (report_lines S.digits self.now (answer_of totals_of answer)) }
        ensures { Writes page.old (report_lines S.digits self.now (answer_of totals_of answer)) page.new }
    {
        match answer {
            Ok(totals) => self.put_accepted(page, totals),
            Err(why) => put_reason(page, why),
        }
    }

    // The lines of take-back's answer, at the front of a buffer, and where they end.
    pub fn put_answer(&self, answer: Result<UndoTotals, Reason>, out: &mut [u8]) -> usize
        requires { Fits 0 (report_lines S.digits self.now (answer_of totals_of answer)) out.old }
        ensures { Put 0 (report_lines S.digits self.now (answer_of totals_of answer)) out.old out.new result }
    {
        let mut page = Page { bytes: out, end: 0 };
        self.put_lines(&mut page, answer);
        page.end
    }
}
