// Plan files, as document 01, "The plan file", has them: reads one, with its waits for those who go by them, and writes
// one without some of its extra arcs.
#![tactic(auto)]

mod activity;
mod arc;
mod checks;
mod crew;
mod field;
mod file;
mod filter;
mod numbers;
mod wait;

ghost use Rattle.std.specs.Prelude.{◌≡◌, eqb};
ghost use Rattle.records.specs.Bytes.{byte};
ghost use Rattle.plan.specs.model.Plans.{empty_plan};
ghost use Rattle.plan.specs.model.Lists.{type_number};
ghost use Rattle.plan.specs.model.Reads.{read_of, outcome};

use checks::check;
use file::{is_length, read_file, records_of};
pub use filter::{store_free, write_staying};
pub use numbers::told_by;
use order::{CELLS, ELEMENTS, Rows};
pub use wait::store_waits;

// How many activities a file may have. (The format's own limit: there may be more elements.)
pub const ACTIVITIES: usize = 64;

// A record of a file.
type Record = [u8; 24];

// The types of records, which their first bytes tell.
#[derive(Clone, Copy)]
enum RecordType {
    Activity = 1,
    Crew = 2,
    JobArc = 3,
    ExtraArc = 4,
}

impl RecordType {
    // Whether a record is of this type.
    fn is_of(self, r: &Record) -> bool
        ensures { result ≡ eqb (byte r.now 0) (type_number self) }
    {
        r[0] == self as u8
    }
}

// What a readable file says. Element i is activity i + 1; the demand of element i for kind k + 1 stands at
// ELEMENTS * k + i; a member j of row i of `job` is a job arc from i to j, and of `extra` an extra arc.
#[derive(Clone, Copy)]
pub struct Plan {
    pub count: usize,
    pub kinds: usize,
    pub duration: [u32; ELEMENTS],
    pub demand: [u32; 8 * ELEMENTS],
    pub available: [u32; 8],
    pub job: Rows,
    pub extra: Rows,
}

impl Plan {
    // The plan that says nothing, for whoever shows one where a file is refused.
    pub fn empty() -> Plan
        ensures { result ≡ empty_plan }
    {
        Plan {
            count: 0,
            kinds: 0,
            duration: [0; ELEMENTS],
            demand: [0; 8 * ELEMENTS],
            available: [0; 8],
            job: [0; CELLS],
            extra: [0; CELLS],
        }
    }
}

// A cause of refusal, with the place of the record that has it.
#[derive(Clone, Copy)]
pub enum Cause {
    Length,
    RecordType(usize),
    Field(usize),
    MilestoneDemand(usize),
    Spare(usize),
    RepeatedArc(usize),
}

// What a cause tells: its number in document 01, and the place of the record, which is the value that is returned with
// it, where there is one.
#[derive(Clone, Copy)]
pub struct Told {
    pub number: u64,
    pub place: Option<usize>,
}

// Reads a plan file: the plan, or the first cause of refusal.
pub fn read(s: &[u8]) -> Result<Plan, Cause>
    ensures { result ≡ outcome (read_of s.now) }
{
    check(is_length(s.len()), Cause::Length)?;
    read_file(records_of(s))
}
