// The crew sheet: one page of text, of a flow's records and the starts of their receivers.
#![tactic(auto)]

ghost use Rattle.std.specs.Prelude.{◌≡◌, ◌+◌, ◌*◌, ◌≤◌, length};
ghost use Rattle.records.specs.Records.{starting_with};
ghost use Rattle.crew_sheet.specs.Sheet.{line_bytes, page_records, page_bytes, pages_of, page_lines, head_line, sheet_page, most_lines};
ghost use Rattle.crew_sheet.specs.Underway.{onto, headed};

mod blocks;
mod fill;
mod handovers;
mod order;
mod text;

pub use fill::pages;
use handovers::Handovers;

// The bytes of a page.
pub const BYTES: usize = 2460;

// The records of a full page.
const RECORDS: usize = 59;

// A page under way: the lent bytes that it fills, and how far it has come.
#[derive(Drop)]
pub struct Page<'a> {
    pub out: &'a mut [u8],
    pub at: usize,
}

impl<'a> Page<'a> {
    // An empty page.
    pub fn begin(out: &'a mut [u8]) -> Page<'a>
        ensures { (result.out ≡ out.entry) × (result.at ≡ 0) }
    {
        Page { out: out, at: 0 }
    }

    // With its head line.
    pub fn head(self, kind: u64, page: usize) -> Page<'a>
        requires { self.at + line_bytes ≤ length self.out.now }
        ensures { result ≡ headed self.entry kind page }
    {
        let at = self.at;
        let next = text::put_head(&mut *self.out, at, kind, page);
        Page {
            out: self.out,
            at: next,
        }
    }

    // The lines behind the head, and with them the page is full. Gives the count of pages. (n stands beside the
    // records, as in `write_page`.)
    pub fn fill(self, flow: &[u8], n: usize, starts: &[u32], page: usize) -> usize
        requires { (n ≤ most_lines) × (24 * n ≤ length flow.now) × (1 ≤ page) × (page ≤ most_lines) × (self.at + line_bytes * page_records ≤ length self.out.now) }
        ensures { (result ≡ pages_of n) × (self.exit.0.now ≡ onto self.entry.at (page_lines flow.now starts.now n page) self.entry.out.now) }
    {
        let at = self.at;
        let handovers = Handovers {
            records: flow,
            n,
            starts,
        };
        fill::put_lines(&mut *self.out, at, &handovers, page)
    }
}

// A page with its head. (A function of its own: the proof of a caller follows lent bytes through the call that makes a
// page and the one that spends it, and through no third.)
fn with_head<'a>(out: &'a mut [u8], kind: u64, page: usize) -> Page<'a>
    requires { line_bytes ≤ length out.old }
    ensures same_reference { result.out.ghost_name ≡ out.entry.ghost_name }
    ensures written { result.out.now ≡ onto 0 (head_line kind page) out.old }
    ensures at { result.at ≡ line_bytes }
{
    Page::begin(out).head(kind, page)
}

// Writes a page of the sheet of n flow records to the front of the lent bytes. Gives the count of pages. (`most_lines`
// keeps every sum within a word. The records are bytes with n beside them, as its contract has them,
// and as C passes them.)
pub fn write_page(
    out: &mut [u8],
    flow: &[u8],
    n: usize,
    starts: &[u32],
    kind: u64,
    page: usize,
) -> usize
    requires { (page_bytes ≤ length out.old) × (n ≤ most_lines) × (24 * n ≤ length flow.now) × (1 ≤ page) × (page ≤ most_lines) }
    ensures { (result ≡ pages_of n) × (out.new ≡ starting_with (sheet_page flow.now starts.now n kind page) out.old) }
{
    with_head(out, kind, page).fill(flow, n, starts, page)
}
