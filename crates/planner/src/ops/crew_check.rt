// Crew check: starts and worked durations of a crew, against a plan.
ghost use Rattle.std.specs.Prelude.{◌≡◌, ◌≤◌, length};
ghost use Rattle.order.specs.Stored.{elements};
ghost use Rattle.plan.specs.Meaning.{Readable};
ghost use Rattle.schedule.specs.Lists.{at};
ghost use Rattle.schedule.specs.Checks.{check_of};
ghost use Rattle.schedule.specs.model.Arrays.{crew_net, work_of, Listed};
ghost use Rattle.planner.specs.Times.{arc_weight};
ghost use Rattle.planner.specs.CrewCheck.{misworked, some_misworked, bad_lists, crew_check_answer};

use crate::Cause;
use crate::open::Opened;
use order::ELEMENTS;
use schedule::Checked;

// Whether a worked duration does not fit the duration in the file: a milestone is worked in 0, any other activity
// in 1 or more.
fn misworked(duration: u32, worked: u32) -> bool
    ensures { result ≡ misworked duration worked }
{
    if duration == 0 {
        0 < worked
    } else {
        worked == 0
    }
}

// Whether that is so of some activity.
fn some_misworked(durations: &[u32; ELEMENTS], worked: &[u32]) -> bool
    requires { length worked.now ≤ elements }
    ensures { result ≡ some_misworked durations.now worked.now }
{
    for (d, w) in durations.iter().zip(worked) {
        if misworked(*d, *w) {
            return true;
        }
    }
    false
}

// Whether the lists are not m long, or a worked duration does not fit.
fn bad_lists(m: usize, durations: &[u32; ELEMENTS], starts: &[u32], worked: &[u32]) -> bool
    requires { m ≤ elements }
    ensures { result ≡ bad_lists m durations.now starts.now worked.now }
{
    if starts.len() != m {
        return true;
    }
    if worked.len() != m {
        return true;
    }
    some_misworked(durations, worked)
}

// What is found, by arcs, demands and availabilities that were opened, and by the file's waits, which are read here.
fn found_in(s: &[u8], opened: &Opened, starts: &[u32], worked: &[u32]) -> Checked
    requires { Readable s.now × Listed starts.now worked.now }
    ensures { result ≡ check_of
        (crew_net opened.now.rows (arc_weight s.now (at worked.now)) starts.now)
        (work_of opened.now.plan.now.demand opened.now.plan.now.available starts.now worked.now) }
{
    let mut waits = [0u32; ELEMENTS * ELEMENTS];
    plan::store_waits(s, &mut waits);
    let plan = opened.plan;
    schedule::crew_check(
        &opened.rows,
        &waits,
        &plan.demand,
        &plan.available,
        starts,
        worked,
    )
}

// Crew check of a start and a worked duration for each activity of the plan.
pub fn crew_check(s: &[u8], starts: &[u32], worked: &[u32]) -> Result<Checked, Cause>
    ensures { result ≡ crew_check_answer s.now starts.now worked.now }
{
    let plan = plan::read(s)?;
    let opened = Opened::of(&plan)?;
    let m = opened.plan.count;
    if bad_lists(m, &opened.plan.duration, starts, worked) {
        return Err(Cause::Lists(m));
    }
    Ok(found_in(s, &opened, starts, worked))
}
