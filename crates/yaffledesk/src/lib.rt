// The planner's operations and the report for C: numbers and slices only. Every answer is one number of 64 bits. Its
// low 8 bits are the number of document 01, 0 where the operation is done; the bits above are its values.
// `include/yaffledesk.h` is the same for a C reader.
#![tactic(auto)]

ghost use Rattle.std.specs.Prelude.{◌≡◌, length};
ghost use Rattle.planner.specs.Verdict.{verdict_answer};
ghost use Rattle.planner.specs.Needs.{needs_answer, needs_out};
ghost use Rattle.planner.specs.Starts.{starts_answer, starts_out};
ghost use Rattle.planner.specs.Flow.{flow_answer, flow_out};
ghost use Rattle.planner.specs.Sheet.{sheet_answer, sheet_out};
ghost use Rattle.planner.specs.Trim.{trim_answer, trim_out};
ghost use Rattle.planner.specs.Overload.{overload_answer, overload_out};
ghost use Rattle.planner.specs.CrewCheck.{crew_check_answer};
ghost use Rattle.yaffledesk.specs.Codes.{verdict_code, output_code, crew_check_code, shown_word};
ghost use Rattle.yaffledesk.specs.Report.{report_answer, report_out};

use codes::{crew_check_code, output_code, shown_word, verdict_code};
use text::write_report;

mod codes;
mod text;

// Verdict: m + 256 * K where the plan is accepted.
#[unsafe(no_mangle)]
pub extern "C" fn yaffledesk_verdict(plan: &[u8]) -> u64
    ensures { result ≡ verdict_code (verdict_answer plan.now) }
{
    verdict_code(planner::verdict(plan))
}

// The set that Verdict shows with 7, else 0.
#[unsafe(no_mangle)]
pub extern "C" fn yaffledesk_set(plan: &[u8]) -> u64
    ensures { result ≡ shown_word (verdict_answer plan.now) }
{
    shown_word(planner::verdict(plan))
}

// Needs: how many numbers are written to the front of `out`.
#[unsafe(no_mangle)]
pub extern "C" fn yaffledesk_needs(plan: &[u8], out: &mut [u32]) -> u64
    ensures value { result ≡ output_code (needs_answer plan.now (length out.old)) }
    ensures out_after { out.new ≡ needs_out plan.now out.old }
{
    output_code(planner::needs(plan, out))
}

// Starts: how many numbers are written to the front of `out`.
#[unsafe(no_mangle)]
pub extern "C" fn yaffledesk_starts(plan: &[u8], out: &mut [u32]) -> u64
    ensures value { result ≡ output_code (starts_answer plan.now (length out.old)) }
    ensures out_after { out.new ≡ starts_out plan.now out.old }
{
    output_code(planner::starts(plan, out))
}

// Flow of a kind: how many records are written to the front of `out`.
#[unsafe(no_mangle)]
pub extern "C" fn yaffledesk_flow(plan: &[u8], kind: u64, out: &mut [u8]) -> u64
    ensures value { result ≡ output_code (flow_answer plan.now kind (length out.old)) }
    ensures out_after { out.new ≡ flow_out plan.now kind out.old }
{
    output_code(planner::flow(plan, kind as usize, out))
}

// A page of the sheet of a kind: how many pages there are, where it is written to the front of `out`.
#[unsafe(no_mangle)]
pub extern "C" fn yaffledesk_sheet(plan: &[u8], kind: u64, page: u64, out: &mut [u8]) -> u64
    ensures value { result ≡ output_code (sheet_answer plan.now kind page (length out.old)) }
    ensures out_after { out.new ≡ sheet_out plan.now kind page out.old }
{
    output_code(planner::sheet(plan, kind as usize, page as usize, out))
}

// The plan without the extra arcs of wait 0 that it can do without: how many records it has, where they are written to
// the front of `out`.
#[unsafe(no_mangle)]
pub extern "C" fn yaffledesk_trim(plan: &[u8], out: &mut [u8]) -> u64
    ensures value { result ≡ output_code (trim_answer plan.now (length out.old)) }
    ensures out_after { out.new ≡ trim_out plan.now out.old }
{
    output_code(planner::trim(plan, out))
}

// Overload: 1 where its record is written to the front of `out`, 0 where the plan is accepted.
#[unsafe(no_mangle)]
pub extern "C" fn yaffledesk_overload(plan: &[u8], out: &mut [u8]) -> u64
    ensures value { result ≡ output_code (overload_answer plan.now (length out.old)) }
    ensures out_after { out.new ≡ overload_out plan.now out.old }
{
    output_code(planner::overload(plan, out))
}

// Crew check: 0 where the crew fits; 254 for a broken arc, with from + 256 * to; 255 for an overload, with
// kind + 256 * period.
#[unsafe(no_mangle)]
pub extern "C" fn yaffledesk_crew_check(plan: &[u8], starts: &[u32], durations: &[u32]) -> u64
    ensures { result
        ≡ crew_check_code (crew_check_answer plan.now starts.now durations.now) }
{
    crew_check_code(planner::crew_check(plan, starts, durations))
}

// The report of a plan, of a refused one too: how many bytes of text are written to the front of `out`.
#[unsafe(no_mangle)]
pub extern "C" fn yaffledesk_report(plan: &[u8], out: &mut [u8]) -> u64
    ensures value { result ≡ output_code (report_answer plan.now (length out.old)) }
    ensures out_after { out.new ≡ report_out plan.now out.old }
{
    output_code(write_report(plan, out))
}
