// The report, which is no operation of the planner's, as one that writes.
ghost use Rattle.std.specs.Prelude.{◌≡◌, length};
ghost use Rattle.yaffledesk.specs.Report.{report_answer, report_out};

use planner::Cause;
use report_lines::REPORT_BYTES;

// The report of a plan's bytes, to the front of the lent bytes. Room for the longest report is asked for first: how
// long this one is shows only when it is written.
pub fn write_report(plan: &[u8], out: &mut [u8]) -> Result<usize, Cause>
    ensures value { result ≡ report_answer plan.now (length out.old) }
    ensures out_after { out.new ≡ report_out plan.now out.old }
{
    if out.len() < REPORT_BYTES {
        return Err(Cause::Short(REPORT_BYTES));
    }
    let n = report_lines::report_text(out, plan);
    Ok(n)
}
