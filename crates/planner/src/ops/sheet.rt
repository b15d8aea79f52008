// Sheet: a page of the handovers of one kind, for the van (document 02, change 1).
ghost use Rattle.std.specs.Prelude.{◌≡◌, ◌+◌, ◌*◌, ◌≤◌, length, Ok};
ghost use Rattle.order.specs.Stored.{elements};
ghost use Rattle.order.specs.Before.{Acyclic};
ghost use Rattle.order.specs.Orders.{Direct};
ghost use Rattle.plan.specs.Meaning.{Readable};
ghost use Rattle.schedule.specs.model.Arrays.{AllAtMost};
ghost use Rattle.crew_sheet.specs.Sheet.{page_bytes, pages_of, sheet_page, most_lines};
ghost use Rattle.planner.specs.Output.{output_of, lent_after};
ghost use Rattle.planner.specs.Sheet.{is_page, page_fault, sheet_answer, sheet_out};
ghost use Rattle.planner.specs.model.Sheets.{starts_in};

use crate::open::Opened;
use crate::ops::flow::{is_kind, kind_shown, write_records};
use crate::ops::starts::{first_starts, put_starts};
use crate::{Cause, FLOW_BYTES};
use order::ELEMENTS;

// Whether a page is one of 1 to n. (The same as `is_kind`, by the name that specs/Sheet and a wrong version have.)
fn is_page(page: usize, n: usize) -> bool
    ensures { result ≡ is_page page n }
{
    is_kind(page, n)
}

// The starts of a plan's activities, and that of the end, as Starts writes them. (Starts itself writes to what is lent,
// without an array between.)
fn starts_of(s: &[u8], opened: &Opened) -> [u32; ELEMENTS + 1]
    requires { (opened.now.plan.now.count ≤ elements) × Readable s.now × Acyclic (Direct opened.now.rows)
        × AllAtMost 65535 opened.now.plan.now.duration }
    ensures { result ≡ starts_in s.now opened.now.rows opened.now.plan.now }
{
    let m = opened.plan.count;
    let durations = &opened.plan.duration;
    let first = first_starts(s, &opened.rows, durations);
    let end = schedule::end_start(&first, durations, m);
    let mut starts = [0u32; ELEMENTS + 1];
    put_starts(&mut starts, &first, m, end);
    starts
}

// Writes a page of n records to the front of the lent bytes, where there is such a page. (n beside the bytes, as
// `crew_sheet::write_page` has them.) Answers how many pages there
// are.
fn print_page(
    out: &mut [u8],
    records: &[u8],
    n: usize,
    starts: &[u32],
    kind: usize,
    page: usize,
) -> Result<usize, Cause>
    requires { (page_bytes ≤ length out.old) × (n ≤ most_lines) × (24 * n ≤ length records.now) }
    ensures value { result ≡ output_of (page_fault n page) (pages_of n) }
    ensures out_after { out.new ≡ lent_after (page_fault n page)
        (sheet_page records.now starts.now n kind page) out.old }
{
    let pages = crew_sheet::pages(n);
    if !is_page(page, pages) {
        return Err(Cause::NoPage(pages));
    }
    crew_sheet::write_page(out, records, n, starts, kind as u64, page);
    Ok(pages)
}

// Sheet: a page of a kind's flow, as text, to the front of the lent bytes. Answers how many pages there are.
pub fn sheet(s: &[u8], kind: usize, page: usize, out: &mut [u8]) -> Result<usize, Cause>
    ensures value { result ≡ sheet_answer s.now kind page (length out.old) }
    ensures out_after { out.new ≡ sheet_out s.now kind page out.old }
{
    let plan = plan::read(s)?;
    let opened = Opened::of(&plan)?;
    kind_shown(&opened, kind, out.len(), crew_sheet::BYTES)?;
    let starts = starts_of(s, &opened);
    let mut records = [0u8; FLOW_BYTES];
    let n = write_records(&mut records, &opened, kind - 1);
    print_page(out, &records, n, &starts, kind, page)
}
