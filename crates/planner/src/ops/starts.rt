// Starts: the earliest starts of a plan's activities, and that of the end.
ghost use Rattle.std.specs.Prelude.{◌≡◌, ◌+◌, ◌≤◌, length};
ghost use Rattle.words.specs.Tables.{over};
ghost use Rattle.order.specs.Stored.{elements};
ghost use Rattle.order.specs.Before.{Acyclic};
ghost use Rattle.order.specs.Orders.{Direct};
ghost use Rattle.plan.specs.Meaning.{Readable};
ghost use Rattle.schedule.specs.Lists.{at};
ghost use Rattle.schedule.specs.model.Arrays.{AllAtMost, starts_of};
ghost use Rattle.planner.specs.Times.{arc_weight};
ghost use Rattle.planner.specs.Starts.{starts_answer, starts_out, with_end};

use crate::Cause;
use crate::faults::enough;
use crate::open::Opened;
use order::{ELEMENTS, Rows};

// Writes m starts and the start of the end to the front of the lent numbers.
pub fn put_starts(out: &mut [u32], starts: &[u32; ELEMENTS], m: usize, end: u32)
    requires { (m ≤ elements) × (m + 1 ≤ length out.old) }
    ensures { out.new ≡ over (m + 1) (with_end m starts.now end) out.old }
{
    out[..m].copy_from_slice(&starts[..m]);
    out[m] = end;
}

// The earliest starts of all elements, by arcs and durations that were opened, and by the file's waits, which are
// read here.
pub fn first_starts(s: &[u8], rows: &Rows, durations: &[u32; ELEMENTS]) -> [u32; ELEMENTS]
    requires { Readable s.now × Acyclic (Direct rows.now) × AllAtMost 65535 durations.now }
    ensures { result ≡ starts_of rows.now (arc_weight s.now (at durations.now)) }
{
    let mut waits = [0u32; ELEMENTS * ELEMENTS];
    plan::store_waits(s, &mut waits);
    schedule::earliest(rows, durations, &waits)
}

// Starts: those of the m activities, and then that of the end, to the front of the lent numbers. Answers how many.
pub fn starts(s: &[u8], out: &mut [u32]) -> Result<usize, Cause>
    ensures value { result ≡ starts_answer s.now (length out.old) }
    ensures out_after { out.new ≡ starts_out s.now out.old }
{
    let plan = plan::read(s)?;
    let opened = Opened::of(&plan)?;
    let m = opened.plan.count;
    let needed = m + 1;
    enough(out.len(), needed)?;
    let durations = &opened.plan.duration;
    let first = first_starts(s, &opened.rows, durations);
    let end = schedule::end_start(&first, durations, m);
    put_starts(out, &first, m, end);
    Ok(needed)
}
