// The report, written to lent bytes: its lines, from numbers, records and causes, and the whole text of a file's bytes
// (document 01, "Plans A to F").
#![tactic(auto)]

use plan::ACTIVITIES;
use planner::MOST_RECORDS;

mod flows;
mod head;
mod refusal;
mod text;

pub use flows::put_records;
pub use head::head_text;
pub use refusal::refused_text;
pub use text::report_text;

// The most bytes that a report has (`text_room` of the specs).
pub const REPORT_BYTES: usize = 1024 + 48 * ACTIVITIES + 8 * (32 * MOST_RECORDS) + 78;
