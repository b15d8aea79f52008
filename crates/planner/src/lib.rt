// The operations of the planner, each on the plan's bytes. Every operation has a file in `ops`: it reads and opens the
// plan (`open`), looks for its own causes in turn (`faults`), and answers with the first cause that it meets, or with
// what it found or wrote.
#![tactic(auto)]

ghost use Rattle.std.specs.Prelude.{◌≡◌};
ghost use Rattle.planner.specs.declared.Cause.TheVariants.{Unreadable};

use plan::ACTIVITIES;

mod faults;
mod numbers;
mod open;
mod ops;

pub use numbers::refusal_of;
pub use open::available;
pub use ops::crew_check::crew_check;
pub use ops::flow::flow;
pub use ops::needs::needs;
pub use ops::overload::overload;
pub use ops::sheet::sheet;
pub use ops::starts::starts;
pub use ops::trim::trim;
pub use ops::verdict::verdict;

// The most records that a flow has (`most_records` of the specs).
pub const MOST_RECORDS: usize = ACTIVITIES * (ACTIVITIES - 1) / 2 + 2 * ACTIVITIES + 1;

// How many bytes its records take.
pub const FLOW_BYTES: usize = 24 * MOST_RECORDS;

// Why an operation refuses, with the cause's own data. Activities and kinds count from 1.
#[derive(Clone, Copy)]
pub enum Cause {
    // The file is not readable: the reader's cause.
    Unreadable(plan::Cause),
    // A circle in the job order, 5: the lowest activity before itself there.
    JobCircle(usize),
    // A circle in the plan order only, 6: the lowest activity before itself there.
    PlanCircle(usize),
    // The plan is overloaded, 7: the lowest such kind, its need, and an unrelated set that has it.
    Overloaded {
        kind: usize,
        need: u32,
        set: order::Set,
    },
    // The kind is not 1 to K, 8: K.
    NoKind(usize),
    // The lent slice is too short, 9: the length needed.
    Short(usize),
    // The lists are not m long, or a worked duration does not fit (0 for a milestone, 1 or more for all others), 10: m.
    Lists(usize),
    // The page is not 1 to the page count, 11: that count.
    NoPage(usize),
}

// So a file is read by `plan::read(s)?`.
impl From<plan::Cause> for Cause {
    ghost from_gives = { λ unread cause. cause ≡ Unreadable unread };

    fn from(unread: plan::Cause) -> Cause {
        Cause::Unreadable(unread)
    }
}

// What is returned with a cause's number.
#[derive(Clone, Copy)]
pub enum Values {
    Nothing,
    One(usize),
    // A kind, its need, and an unrelated set that has it.
    Need {
        kind: usize,
        need: u32,
        set: order::Set,
    },
}

// What a refusal tells: document 01's number of its cause, and what is returned with it.
#[derive(Clone, Copy)]
pub struct Refusal {
    pub number: u64,
    pub values: Values,
}

// What Verdict says of a plan that is accepted: m and K.
#[derive(Clone, Copy)]
pub struct Accepted {
    pub activities: usize,
    pub kinds: usize,
}
