// Needs: the need of each kind, which the price list quotes.
ghost use Rattle.std.specs.Prelude.{◌≡◌, length, replicate};
ghost use Rattle.words.specs.Tables.{over};
ghost use Rattle.kinds.specs.Needs.{needs_for};
ghost use Rattle.planner.specs.Needs.{needs_answer, needs_out};
ghost use Rattle.planner.specs.model.Opening.{Fits};

use crate::Cause;
use crate::faults::enough;
use crate::open::Opened;

// The needs of a plan's kinds, and zeros behind them.
fn needs_of(opened: &Opened) -> [u32; 8]
    requires { Fits opened.now.plan.now }
    ensures { result ≡ over opened.now.plan.now.kinds
        (needs_for opened.now.plan.now.count opened.now.order opened.now.plan.now.demand opened.now.plan.now.kinds)
        (replicate 8 0) }
{
    let plan = opened.plan;
    let mut numbers = [0u32; 8];
    kinds::put_needs(
        &mut numbers,
        opened.order,
        plan.count,
        &plan.demand,
        plan.kinds,
    );
    numbers
}

// Needs: the need of each kind from 1 to K, to the front of the lent numbers. Answers K.
pub fn needs(s: &[u8], out: &mut [u32]) -> Result<usize, Cause>
    ensures value { result ≡ needs_answer s.now (length out.old) }
    ensures out_after { out.new ≡ needs_out s.now out.old }
{
    let plan = plan::read(s)?;
    let opened = Opened::of(&plan)?;
    let n = opened.plan.kinds;
    enough(out.len(), n)?;
    let numbers = needs_of(&opened);
    out[..n].copy_from_slice(&numbers[..n]);
    Ok(n)
}
