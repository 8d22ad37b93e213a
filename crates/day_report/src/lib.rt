// The report on a day, by the bytes of its three files, written into a buffer.
#![tactic(auto)]

ghost use Rattle.std.specs.Prelude.{◌≤◌, length, take};
ghost use Rattle.format.specs.Limits.{max_journal_bytes};
ghost use Rattle.text.specs.Puts.{Put};
ghost use Rattle.report.specs.Output.{report_bytes};
ghost use Rattle.day_report.specs.Output.{report_of};
ghost use Rattle.day_report.specs.Printed.{Prints, Within};
ghost use Rattle.day_report.specs.Certified.{ReportsFiles, PrintsPromise};

use format::{MAX_JOURNAL_BYTES, STATUS_BYTES, Wire};
use report::REPORT_BYTES;

// The most amounts in a table file.
const FILE_AMOUNTS: usize = MAX_JOURNAL_BYTES / i32::WIDTH;

// The most transactions in a bad-list file.
const FILE_TRANSACTIONS: usize = MAX_JOURNAL_BYTES / u16::WIDTH;

// The report on a folder's journal, table file and bad-list file at the front of `out`, and its length. Nothing is allocated: the arrays hold
// the entries of the longest files, and a shorter file's stand at the front. The files are document 01's three, each a parameter.
fn report(journal: &[u8], table: &[u8], bad: &[u8], out: &mut [u8]) -> usize
    requires table { length table.now ≤ max_journal_bytes }
    requires bad { length bad.now ≤ max_journal_bytes }
    requires room { report_bytes ≤ length out.old }
    ensures size { result ≤ report_bytes }
    ensures text { Put 0 (report_of journal.now table.now bad.now) out.old
        out.new result }
    ensures demands { ReportsFiles journal.now table.now bad.now
        (take result out.new) }
{
    let mut old = [0i32; FILE_AMOUNTS];
    let items = decode::read_all(table, &mut old);
    let mut new = old;
    let mut listed = [0u16; FILE_TRANSACTIONS];
    let count = decode::read_all(bad, &mut listed);
    let mut status = [0u8; STATUS_BYTES];
    let mut copy = [0u8; MAX_JOURNAL_BYTES];
    report::report_on(
        journal,
        &old[..items],
        &mut new[..items],
        &listed[..count],
        &mut status,
        &mut copy,
        out,
    )
}

// The report on the three files, of which the first 64,020 bytes are read, at the front of `out`, and its length. A buffer of under
// 100,000 bytes is too short for some report: none is written.
pub fn report_files(journal: &[u8], table: &[u8], bad: &[u8], out: &mut [u8]) -> Option<usize>
    ensures within { Within out.new result }
    ensures text { Prints journal.now table.now bad.now out.old
        out.new result }
    ensures demands { PrintsPromise journal.now table.now bad.now out.new result }
{
    if out.len() < REPORT_BYTES {
        return None;
    }
    let j = decode::read_of(journal);
    let t = decode::read_of(table);
    let b = decode::read_of(bad);
    let n = report(&journal[..j], &table[..t], &bad[..b], out);
    Some(n)
}
