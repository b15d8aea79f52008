// Earliest starts, level by level: an element gets its start once all that have an arc to it have theirs.
ghost use Rattle.std.specs.Prelude.{◌≡◌, cond, ◌≤◌, ◌<◌};
ghost use Rattle.words.specs.Bits.{bit};
ghost use Rattle.order.specs.Before.{Acyclic};
ghost use Rattle.order.specs.Orders.{Direct};
ghost use Rattle.order.specs.Stored.{elements, number_of};
ghost use Rattle.schedule.specs.Starts.{asked, end_of};
ghost use Rattle.schedule.specs.model.Arrays.{by_duration, with_waits, starts_of, AllAtMost, FinishesFit};
ghost use Rattle.schedule.specs.Lists.{at};
ghost use Rattle.schedule.specs.model.Levels.{waiting_for, ready_of, placed};

use order::{ELEMENTS, Rows, Set};

// The elements that have an arc from one that is not done.
#[tactic(auto, using(order::proofs::Turns::member_below))]
fn waiting(rows: &Rows, done: Set) -> Set
    ensures { number_of result ≡ waiting_for elements rows.now (number_of done) }
{
    let mut held = Set::EMPTY;
    for i in Set::ALL.minus(done) {
        held = held.union(order::row(rows, i));
    }
    held
}

// The elements that are not done and do not wait.
fn ready(rows: &Rows, done: Set) -> Set
    ensures { number_of result ≡ ready_of rows.now (number_of done) }
{
    Set::ALL.minus(waiting(rows, done)).minus(done)
}

// The start that an arc to j would ask, where the row has one; else 0.
fn asks(row: Set, j: usize, start: u32) -> u32
    requires { j < elements }
    ensures { result ≡ cond (bit (number_of row) j) start 0 }
{
    if row.has(j) { start } else { 0 }
}

// A table of arcs as rows, the durations of the elements, and a wait on each arc: that on the arc from i to j stands at
// ELEMENTS * j + i. (No `Arcs` of the crew check within: `net_in` and `between` of the specs are of one struct each.)
#[derive(Clone, Copy)]
struct Net<'a> {
    rows: &'a Rows,
    durations: &'a [u32; ELEMENTS],
    waits: &'a [u32; ELEMENTS * ELEMENTS],
}

impl<'a> Net<'a> {
    ghost use Rattle.schedule.specs.model.Held.{net_in, weight_in};

    // What the arcs into j ask of its start. (What an arc would ask is summed up where there is none too, so that the
    // loop has no jump.)
    fn latest(&self, starts: &[u32; ELEMENTS], j: usize) -> u32
        requires j_lt_elements { j < elements }
        requires finishes_fit { FinishesFit starts.now (weight_in self.now) }
        ensures { result ≡ asked (net_in self.now) (at starts.now) j }
    {
        let mut best: u32 = 0;
        for (i, start) in starts.iter().enumerate() {
            let wait = self.waits[ELEMENTS * j + i];
            let start = *start + self.durations[i] + wait;
            best = best.max(asks(order::row(self.rows, i), j, start));
        }
        best
    }

    // One level: each element of `ready` gets what the arcs ask of it by the starts `before`.
    #[tactic(auto, using(order::proofs::Turns::member_below))]
    fn place(&self, before: &[u32; ELEMENTS], starts: &mut [u32; ELEMENTS], ready: Set)
        requires { FinishesFit before.now (weight_in self.now) }
        ensures { starts.new ≡ placed (net_in self.now) (at before.now) starts.old (number_of ready) }
    {
        for j in ready {
            starts[j] = self.latest(before, j);
        }
    }
}

// The earliest starts over arcs that make no circle, given as rows, with a wait on each. (There are no more levels than
// elements, which is how the loop is seen to end.)
pub fn earliest<'a>(
    rows: &'a Rows,
    durations: &'a [u32; ELEMENTS],
    waits: &'a [u32; ELEMENTS * ELEMENTS],
) -> [u32; ELEMENTS]
    requires acyclic { Acyclic (Direct rows.now) }
    requires all_at_most { AllAtMost 65535 durations.now }
    requires all_at_most_2 { AllAtMost 65535 waits.now }
    ensures { result ≡ starts_of rows.now (with_waits durations.now waits.now) }
{
    let net = Net {
        rows,
        durations,
        waits,
    };
    let mut starts = [0u32; ELEMENTS];
    let mut done = Set::EMPTY;
    for _level in 0..ELEMENTS {
        let now_ready = ready(rows, done);
        if now_ready.is_empty() {
            return starts;
        }
        let before = starts;
        net.place(&before, &mut starts, now_ready);
        done = done.union(now_ready);
    }
    starts
}

// The start of the end: the largest finish of the first m elements.
pub fn end_start(starts: &[u32; ELEMENTS], durations: &[u32; ELEMENTS], m: usize) -> u32
    requires m_le_elements { m ≤ elements }
    requires finishes_fit { FinishesFit starts.now (by_duration durations.now) }
    ensures { result ≡ end_of m (at starts.now) (at durations.now) }
{
    let mut last: u32 = 0;
    for (start, duration) in starts[..m].iter().zip(durations) {
        let finish = *start + *duration;
        last = last.max(finish);
    }
    last
}
