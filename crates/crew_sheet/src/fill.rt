// The lines behind the head of a page.
ghost use Rattle.std.specs.Prelude.{◌≡◌, ◌+◌, ◌*◌, ◌≤◌, length};
ghost use Rattle.lines.specs.Text.{text, more};
ghost use Rattle.crew_sheet.specs.Sheet.{line_bytes, page_records, record_line, page_lines, pages_of, most_lines};
ghost use Rattle.crew_sheet.specs.Underway.{onto};

use crate::RECORDS;
use crate::handovers::Handovers;
use crate::order::page_rows;
use crate::text::{put_blank, put_row};
use lines::Draft;

// Writes the line of record i, a blank one where there is no such record.
fn put_record(page: &mut Draft, flow: &Handovers, i: usize)
    requires { page.old.at + line_bytes ≤ length page.old.out.now }
    ensures same_reference { page.new.out.ghost_name ≡ page.old.out.ghost_name }
    ensures written { text page.new.at page.new.out.now
        ≡ more (text page.old.at page.old.out.now) (record_line flow.now.records.now flow.now.starts.now flow.now.n i) }
{
    if i < flow.n {
        let from = u64::from(flow.sender(i));
        let to = u64::from(flow.receiver(i));
        let units = u64::from(flow.units(i));
        let start = u64::from(flow.start_of(i));
        put_row(page, from, to, units, start);
        return;
    }
    put_blank(page);
}

// How many pages n records fill.
pub fn pages(n: usize) -> usize
    ensures { result ≡ pages_of n }
{
    if n == 0 {
        return 1;
    }
    1 + (n - 1) / RECORDS
}

// Writes the lines behind the head of a page. Gives the count of pages.
pub fn put_lines(out: &mut [u8], at: usize, flow: &Handovers, page: usize) -> usize
    requires { (1 ≤ page) × (page ≤ most_lines) × (at + line_bytes * page_records ≤ length out.old) }
    ensures { (result ≡ pages_of flow.now.n)
        × (out.new ≡ onto at (page_lines flow.now.records.now flow.now.starts.now flow.now.n page) out.old) }
{
    let rows = page_rows(flow, RECORDS * (page - 1));
    let mut draft = Draft { out, at };
    for i in &rows {
        put_record(&mut draft, flow, *i);
    }
    pages(flow.n)
}
