// Flow: how the units of one kind pass from activity to activity, as records.
ghost use Rattle.std.specs.Prelude.{◌≡◌, ◌≤◌, length, Ok};
ghost use Rattle.order.specs.Stored.{elements};
ghost use Rattle.planner.specs.Flow.{is_kind, flow_answer, flow_out};
ghost use Rattle.planner.specs.File.{flow_length};
ghost use Rattle.planner.specs.model.Opening.{kind_fault_in, Fits};
ghost use Rattle.planner.specs.model.Records.{FlowAsked, flow_put};
ghost use Rattle.kinds.specs.model.Writing.{lent};

use crate::Cause;
use crate::faults::enough;
use crate::open::Opened;

// Whether a kind is one of 1 to n.
pub fn is_kind(kind: usize, n: usize) -> bool
    ensures { result ≡ is_kind kind n }
{
    0 < kind && kind <= n
}

// How many bytes are to be lent for a flow of m activities.
fn flow_length(m: usize) -> usize
    requires { m ≤ elements }
    ensures { result ≡ flow_length m }
{
    if m == 0 {
        return 24;
    }
    24 * (m * (m - 1) / 2 + 2 * m + 1)
}

// 8, 9 and 7: the causes of an operation on one kind of a plan, of which `needed` bytes are needed.
pub fn kind_shown(opened: &Opened, kind: usize, lent: usize, needed: usize) -> Result<(), Cause>
    requires { Fits opened.now.plan.now }
    ensures { result ≡ kind_fault_in (Ok tt) opened.now.order opened.now.plan.now kind lent needed }
{
    let n = opened.plan.kinds;
    if !is_kind(kind, n) {
        return Err(Cause::NoKind(n));
    }
    enough(lent, needed)?;
    opened.not_overloaded()
}

// Writes the records of a plan's flow of kind k + 1 to the front of the lent bytes, with the added marks by the job
// order. Gives their number.
pub fn write_records(out: &mut [u8], opened: &Opened, k: usize) -> usize
    requires { FlowAsked opened.now.order opened.now.plan.now k out.old }
    ensures { lent result out.new ≡ flow_put opened.now.order opened.now.job opened.now.plan.now k out.old }
{
    let plan = opened.plan;
    let order = opened.order;
    let job = opened.job;
    kinds::write_flow(
        out,
        order,
        job,
        &plan.demand,
        k,
        plan.available[k],
        plan.count,
    )
}

// Flow: the records of a kind's flow, to the front of the lent bytes. Answers their number.
pub fn flow(s: &[u8], kind: usize, out: &mut [u8]) -> Result<usize, Cause>
    ensures value { result ≡ flow_answer s.now kind (length out.old) }
    ensures out_after { out.new ≡ flow_out s.now kind out.old }
{
    let plan = plan::read(s)?;
    let opened = Opened::of(&plan)?;
    let needed = flow_length(opened.plan.count);
    kind_shown(&opened, kind, out.len(), needed)?;
    Ok(write_records(out, &opened, kind - 1))
}
