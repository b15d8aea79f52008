// Overload: the record of the lowest kind that needs more than there is, with a set that shows it.
ghost use Rattle.std.specs.Prelude.{◌≡◌, length};
ghost use Rattle.planner.specs.Overload.{overload_answer, overload_out};

use crate::Cause;
use crate::faults::enough;
use crate::open::Opened;

// Overload: its record, to the front of the lent bytes, or none where the plan is accepted. Answers how many records
// that are.
pub fn overload(s: &[u8], out: &mut [u8]) -> Result<usize, Cause>
    ensures value { result ≡ overload_answer s.now (length out.old) }
    ensures out_after { out.new ≡ overload_out s.now out.old }
{
    let plan = plan::read(s)?;
    let opened = Opened::of(&plan)?;
    enough(out.len(), 24)?;
    let over = opened.lowest_overload();
    Ok(kinds::put_overload(out, over))
}
