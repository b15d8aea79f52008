// What every operation does once the plan's bytes are read: it builds the orders, and looks for a circle in each. Then
// the cause 7 of a plan that opens.
ghost use Rattle.std.specs.Prelude.{◌≡◌, Ok};
ghost use Rattle.kinds.specs.Needs.{some_overload};
ghost use Rattle.planner.specs.Faults.{outcome};
ghost use Rattle.planner.specs.Open.{plan_in, job_order_for, order_for, or_circles};
ghost use Rattle.planner.specs.model.Opening.{overload_in, or_found, Fits};

use crate::Cause;
use kinds::Overload;
use order::{Order, Rows};
use plan::Plan;

// A plan that opens, with its direct arcs (job and extra together, as rows), its job order and its plan order. The plan
// stays where it was read to. (`Fits` of it stands in contracts: as a ghost field it was tried, and the definition that
// makes the record, `opened_of` then, would have to prove it of every plan.)
#[derive(Clone, Copy)]
pub struct Opened<'a> {
    pub plan: &'a Plan,
    pub rows: Rows,
    pub job: Order,
    pub order: Order,
}

// 5 and 6: a circle in the job order, or in the plan order only.
#[tactic(auto, using(order::proofs::Sets::some_found))]
fn no_circle(job: Order, whole: Order) -> Result<(), Cause>
    ensures { result ≡ or_circles (Ok tt) job whole }
{
    if let Some(i) = job.circle() {
        return Err(Cause::JobCircle(i + 1));
    }
    if let Some(i) = whole.circle() {
        return Err(Cause::PlanCircle(i + 1));
    }
    Ok(())
}

impl<'a> Opened<'a> {
    ghost use Rattle.planner.specs.model.Opening.{opened_by};

    // Opens a plan that was read: builds its orders, which have no circle.
    pub fn of(plan: &'a Plan) -> Result<Opened<'a>, Cause>
        ensures { result
            ≡ outcome (or_circles (Ok tt) (job_order_for plan.now) (order_for plan.now)) (opened_by plan.entry) }
    {
        let rows = order::joined(plan.job, plan.extra);
        let job = Order::of(plan.job);
        let order = job.with_arcs(plan.extra);
        no_circle(job, order)?;
        Ok(Opened {
            plan,
            rows,
            job,
            order,
        })
    }

    // The lowest kind that needs more than there is.
    pub fn lowest_overload(&self) -> Option<Overload>
        requires { Fits self.now.plan.now }
        ensures { result ≡ some_overload self.now.plan.now.kinds (overload_in self.now.order self.now.plan.now) }
    {
        let plan = self.plan;
        kinds::lowest_overload(
            self.order,
            plan.count,
            &plan.demand,
            &plan.available,
            plan.kinds,
        )
    }

    // 7: a kind needs more than there is.
    pub fn not_overloaded(&self) -> Result<(), Cause>
        requires { Fits self.now.plan.now }
        ensures { result ≡ or_found (Ok tt) (overload_in self.now.order self.now.plan.now) self.now.plan.now.kinds }
    {
        match self.lowest_overload() {
            None => Ok(()),
            Some(over) => {
                let cause = Cause::Overloaded {
                    kind: over.kind + 1,
                    need: over.need,
                    set: over.set,
                };
                Err(cause)
            }
        }
    }
}

// How much of each kind is available, for the report, where there is a circle too: all else that it says is what
// operations write.
pub fn available(s: &[u8]) -> [u32; 8]
    ensures { result ≡ (plan_in s.now).available }
{
    match plan::read(s) {
        Ok(plan) => plan.available,
        Err(_) => [0; 8],
    }
}
