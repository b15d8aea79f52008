// Verdict: whether a plan is accepted.
ghost use Rattle.std.specs.Prelude.{◌≡◌};
ghost use Rattle.planner.specs.Verdict.{verdict_answer};

use crate::open::Opened;
use crate::{Accepted, Cause};

// Verdict: whether the plan is accepted.
pub fn verdict(s: &[u8]) -> Result<Accepted, Cause>
    ensures { result ≡ verdict_answer s.now }
{
    let plan = plan::read(s)?;
    let opened = Opened::of(&plan)?;
    opened.not_overloaded()?;
    Ok(Accepted {
        activities: opened.plan.count,
        kinds: opened.plan.kinds,
    })
}
