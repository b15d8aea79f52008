// The kinds of worker of a plan: what each needs, the lowest that needs more than there is, and the flow of one kind
// as records. Kinds count from 0 here: kind k is kind k + 1 of the file, and the demand of the element i for it
// stands at ELEMENTS * k + i.
#![tactic(auto)]

mod flows;
mod needs;
mod shown;
mod units;

pub use flows::write_flow;
pub use needs::{lowest_overload, put_needs};
pub use shown::put_overload;

// A kind that needs more than there is, with its need and a set of pairwise unrelated elements that has it.
#[derive(Clone, Copy)]
pub struct Overload {
    pub kind: usize,
    pub need: u32,
    pub set: order::Set,
}
