// Earliest starts and the crew check, over arcs, waits, durations and starts alone. The element i is activity i + 1.
#![tactic(auto)]

mod crew;
mod early;
mod load;

pub use crew::crew_check;
pub use early::{earliest, end_start};

// What a crew check finds: nothing, a broken arc between two activities, or a period with the lowest kind that is
// exceeded in it. Activities and kinds count from 1, as in the plan file.
#[derive(Clone, Copy)]
pub enum Checked {
    Fits,
    Broken { from: usize, to: usize },
    Overload { period: u64, kind: usize },
}
