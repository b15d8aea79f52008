// The rules of a record, in turn.
ghost use Rattle.std.specs.Prelude.{◌≡◌, Ok};
ghost use Rattle.plan.specs.Causes.{rule};

use crate::Cause;

// A rule: where it is broken, the cause. (With `?`, the first broken rule in turn gives its cause.)
pub fn check(kept: bool, cause: Cause) -> Result<(), Cause>
    ensures { result ≡ rule (Ok tt) kept cause }
{
    if kept { Ok(()) } else { Err(cause) }
}
