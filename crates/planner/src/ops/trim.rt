// Trim: a plan without the extra arcs that it can do without (document 02, change 7).
ghost use Rattle.std.specs.Prelude.{◌≡◌, true, ◌<◌, length};
ghost use Rattle.order.specs.Stored.{elements};
ghost use Rattle.order.specs.Orders.{after_rows, order_in, joined_rows};
ghost use Rattle.planner.specs.Open.{Opens};
ghost use Rattle.planner.specs.Verdict.{is_accepted};
ghost use Rattle.planner.specs.Trim.{trimmed_rows, trim_answer, trim_out};
ghost use Rattle.planner.specs.model.Opening.{held_in, opened_of, Fits};
ghost use Rattle.planner.specs.model.Trimming.{follows_in, extra_left, OrderHeld};

use crate::Cause;
use crate::faults::enough;
use crate::open::Opened;
use order::{CELLS, ELEMENTS, Order, Rows};
use plan::Plan;

// Whether the pair of an extra arc follows from the other arcs: then the order is the same without it.
fn follows(job: &Rows, extra: &Rows, afters: &Rows, i: usize, j: usize) -> bool
    requires { (i < elements) × (j < elements) }
    ensures { result ≡ follows_in job.now extra.now afters.now i j }
{
    let others = order::row(job, i).union(order::row(extra, i).without(j));
    if others.has(j) {
        return true;
    }
    order::some_before(afters, others, j)
}

// Considers the pair i, j of a plan: an extra arc that may go, one of `free`, is taken out where the plan then left is
// still accepted. `extra` are the extra arcs that are left, and `afters` the sets of what each element is before, by
// all arcs that are left. (Where the pair follows from the others, nothing is weighed.)
fn consider(plan: &Plan, free: &Rows, extra: &mut Rows, afters: &mut Rows, i: usize, j: usize)
    requires { (i < elements) × (j < elements) × Fits plan.now
        × OrderHeld plan.now.job extra.old afters.old }
    ensures extra_after { extra.new ≡ extra_left plan.now.count plan.now.job plan.now.demand plan.now.available
        plan.now.kinds free.now afters.old extra.old i j }
    ensures afters_after { afters.new ≡ after_rows (order_in (joined_rows plan.now.job extra.new)) }
{
    if !order::row(free, i).has(j) {
        return;
    }
    if follows(&plan.job, extra, afters, i, j) {
        order::without_arc(extra, i, j);
        return;
    }
    let mut less = *extra;
    order::without_arc(&mut less, i, j);
    let mut closed = order::joined(plan.job, less);
    let order = Order::closing(&mut closed);
    let over = kinds::lowest_overload(order, plan.count, &plan.demand, &plan.available, plan.kinds);
    if over.is_some() {
        return;
    }
    *extra = less;
    *afters = closed;
}

// The extra arcs that are left of a plan that is accepted: each arc that may go is considered, by from, then to. (By
// numbers: `trim_up_to` of specs/Trim goes over all pairs. The bytes stand beside what was opened, since only they have
// the waits.)
fn extra_left(s: &[u8], opened: &Opened) -> Rows
    requires { Opens s.now × (held_in opened.now ≡ opened_of s.now) × (is_accepted opened.now.plan.now ≡ true) }
    ensures { result ≡ trimmed_rows s.now }
{
    let mut free: Rows = [0; CELLS];
    plan::store_free(s, &mut free);
    let plan = opened.plan;
    let mut extra = plan.extra;
    let mut afters = opened.order.after_rows();
    for i in 0..plan.count {
        for j in 0..ELEMENTS {
            consider(plan, &free, &mut extra, &mut afters, i, j);
        }
    }
    extra
}

// Trim: the plan without the extra arcs of wait 0 that it can do without, to the front of the lent bytes. Answers how
// many records it has.
pub fn trim(s: &[u8], out: &mut [u8]) -> Result<usize, Cause>
    ensures value { result ≡ trim_answer s.now (length out.old) }
    ensures out_after { out.new ≡ trim_out s.now out.old }
{
    let plan = plan::read(s)?;
    let opened = Opened::of(&plan)?;
    enough(out.len(), s.len())?;
    opened.not_overloaded()?;
    let extra = extra_left(s, &opened);
    Ok(plan::write_staying(s, &extra, out))
}
