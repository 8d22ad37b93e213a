// Take-back, and the report on it written into a buffer.
#![tactic(auto)]

ghost use Rattle.std.specs.Prelude.{◌≡◌, ◌≤◌, length, take};
ghost use Rattle.format.specs.Limits.{status_bytes};
ghost use Rattle.journal.specs.Inputs.{inputs_of};
ghost use Rattle.journal.specs.Calls as calls;
ghost use Rattle.text.specs.Puts.{Put};
ghost use Rattle.report.specs.Output.{lines_of, report_bytes};
ghost use Rattle.report.specs.Certified.{Reports};

use lines::Report;

// Room for any report.
pub const REPORT_BYTES: usize = 100_000;

// Take-back, and its report. The parameters are document 01's loans of take-back, the table as it was, and the report's buffer.
pub fn report_on(
    journal: &[u8],
    old: &[i32],
    new: &mut [i32],
    bad: &[u16],
    status: &mut [u8],
    copy: &mut [u8],
    out: &mut [u8],
) -> usize
    requires same { new.old ≡ old.now }
    requires marks { length status.old ≡ status_bytes }
    requires room { report_bytes ≤ length out.old }
    ensures text { Put 0
        (lines_of (inputs_of journal.now old.now)
        (calls.undo (inputs_of journal.now old.now) bad.now status.old
        copy.old)) out.old out.new result }
    ensures demands { Reports (inputs_of journal.now old.now) bad.now status.old
        copy.old (take result out.new) }
{
    let answer = certified::undo(journal, new, bad, status, copy);
    let report = Report {
        records: decode::count_in(journal),
        status,
        old,
        new,
        sum: net::net_in(copy),
    };
    report.put_answer(answer, out)
}
