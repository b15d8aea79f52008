// The crew check: the first broken arc, or else the first period with the lowest kind of which
// more is occupied than there is.
ghost use Rattle.std.specs.Prelude.{◌≡◌, ◌&&◌, ◌+◌, ◌*◌, ◌^◌, ◌≤◌, ◌<◌, ltb, length};
ghost use Rattle.words.specs.Bits.{bit};
ghost use Rattle.schedule.specs.Checks.{broken_to, lowest_kind, check_of};
ghost use Rattle.schedule.specs.model.Arrays.{crew_net, with_waits, work_of, Listed};
ghost use Rattle.schedule.specs.model.Found.{below, first_broken, first_over};
ghost use Rattle.schedule.specs.model.Levels.{sooner_over};
ghost use Rattle.schedule.specs.Lists.{at};
ghost use Rattle.order.specs.Stored.{elements, row};

use crate::Checked;
use order::{ELEMENTS, Rows};

// A start and a worked duration for each activity, of which there are no more than ELEMENTS.
#[derive(Clone, Copy)]
pub struct Crew<'a> {
    pub starts: &'a [u32],
    pub worked: &'a [u32],
    ghost listed: { Listed starts.now worked.now },
}

// What a crew has to do: r_ik stands at demands[ELEMENTS * k + i], and of kind k there is available[k].
#[derive(Clone, Copy)]
pub struct Work<'a> {
    pub crew: Crew<'a>,
    pub demands: &'a [u32; 8 * ELEMENTS],
    pub available: &'a [u32; 8],
}

// Arcs as rows, with a wait on each: that on the arc from i to j stands at ELEMENTS * j + i.
#[derive(Clone, Copy)]
struct Arcs<'a> {
    rows: &'a Rows,
    waits: &'a [u32; ELEMENTS * ELEMENTS],
}

impl<'a> Arcs<'a> {
    ghost use Rattle.schedule.specs.model.Held.{between};

    // Whether there is an arc from i to the element j, which starts before the finish of i plus the wait on the arc.
    // The wait is read only where there is an arc, so that a pair without one pays nothing for it.
    fn breaks_at(&self, i: usize, j: usize, finish: u64, next: u32) -> bool
        requires { (i < elements) × (j < elements) × (finish < 2 ^ 33) }
        ensures { result
            ≡ (bit (row self.now.rows.now i) j && ltb next (finish + at self.now.waits.now (elements * j + i))) }
    {
        order::row(self.rows, i).has(j)
            && u64::from(next) < finish + u64::from(self.waits[ELEMENTS * j + i])
    }

    // The first element to which an arc from i is broken.
    fn broken_to(&self, crew: &Crew, i: usize) -> Option<usize>
        requires i_in_bounds { i < length crew.now.starts.now }
        ensures { result
            ≡ below (length crew.now.starts.now) (broken_to (between self.now crew.now) (at crew.now.starts.now) i) }
    {
        let finish = u64::from(crew.starts[i]) + u64::from(crew.worked[i]);
        for (j, next) in crew.starts.iter().enumerate() {
            if self.breaks_at(i, j, finish, *next) {
                return Some(j);
            }
        }
        None
    }

    // The first broken arc: the first element from which an arc is broken, and the first to which one from it is. (The
    // index is all that a turn needs.)
    fn first_broken(&self, crew: &Crew) -> Option<(usize, usize)>
        ensures { result ≡ first_broken (between self.now crew.now) (at crew.now.starts.now) }
    {
        for from in 0..crew.starts.len() {
            if let Some(to) = self.broken_to(crew, from) {
                return Some((from, to));
            }
        }
        None
    }
}

// The sooner of two overloads, each a period and a kind, or the second alone.
fn sooner(first: Option<(u64, usize)>, other: (u64, usize)) -> (u64, usize)
    ensures { result ≡ sooner_over first other }
{
    match first {
        Some(found) if found.0 <= other.0 => found,
        _ => other,
    }
}

impl<'a> Work<'a> {
    ghost use Rattle.schedule.specs.model.Held.{work_in};

    // The lowest kind that is exceeded in period t.
    fn lowest_kind(&self, t: u64) -> Option<usize>
        requires le_t { 1 ≤ t }
        ensures { result ≡ below 8 (lowest_kind (work_in self.now) t) }
    {
        let available = self.available;
        let load = self.period_load(t);
        available
            .iter()
            .zip(&load)
            .position(|(available, occupied)| u64::from(*available) < *occupied)
    }

    // The first overloaded period, with the lowest kind that is exceeded in it. Only the periods that follow a start
    // are tried.
    fn first_over(&self) -> Option<(u64, usize)>
        ensures { result ≡ first_over (work_in self.now) }
    {
        let mut first: Option<(u64, usize)> = None;
        for start in self.crew.starts {
            let t = u64::from(*start) + 1;
            if let Some(kind) = self.lowest_kind(t) {
                first = Some(sooner(first, (t, kind)));
            }
        }
        first
    }
}

// The crew check of m starts and m worked durations, by arcs with a wait on each.
pub fn crew_check<'a>(
    rows: &'a Rows,
    waits: &'a [u32; ELEMENTS * ELEMENTS],
    demands: &'a [u32; 8 * ELEMENTS],
    available: &'a [u32; 8],
    starts: &'a [u32],
    worked: &'a [u32],
) -> Checked
    requires { Listed starts.now worked.now }
    ensures { result
        ≡ check_of (crew_net rows.now (with_waits worked.now waits.now) starts.now)
        (work_of demands.now available.now starts.now worked.now) }
{
    let crew = Crew { starts, worked };
    let arcs = Arcs { rows, waits };
    if let Some((from, to)) = arcs.first_broken(&crew) {
        return Checked::Broken {
            from: from + 1,
            to: to + 1,
        };
    }
    let work = Work {
        crew,
        demands,
        available,
    };
    match work.first_over() {
        Some((period, kind)) => Checked::Overload {
            period,
            kind: kind + 1,
        },
        None => Checked::Fits,
    }
}
