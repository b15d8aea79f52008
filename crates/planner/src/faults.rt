// The causes that operations share. (7 and the causes of the opening are `open`'s.)
ghost use Rattle.std.specs.Prelude.{◌≡◌, Ok};
ghost use Rattle.planner.specs.Faults.{or_short};

use crate::Cause;

// 9: fewer numbers or bytes are lent than are needed.
pub fn enough(lent: usize, needed: usize) -> Result<(), Cause>
    ensures { result ≡ or_short (Ok tt) lent needed }
{
    if lent < needed {
        return Err(Cause::Short(needed));
    }
    Ok(())
}
