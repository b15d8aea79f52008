// The load of a period, in the steps of the paper (document 000, section 1): "For period t ∈ N0, we define A(s, t) = {i
// ∈ N : s_i ≤ (t − 1) ∧ s_i + d_i ≥ t}, the activities that are active during period t", and of each kind k the sum of
// r_ik over them. Document 01 says "at work" and "occupied". Here s is `starts`, d is `worked`, r is `demands`, and the
// sum of kind k + 1 is `load[k]`.
ghost use Rattle.std.specs.Prelude.{◌≡◌, ◌+◌, ◌*◌, ◌^◌, ◌≤◌, ◌<◌, length};
ghost use Rattle.schedule.specs.PeriodLoad.{started_by, finished_no_sooner, load_of};
ghost use Rattle.schedule.specs.model.Arrays.{AllAtMost};
ghost use Rattle.schedule.specs.model.Held.{work_in};
ghost use Rattle.schedule.specs.model.Loads.{with_demands};
ghost use Rattle.schedule.specs.Lists.{at};
ghost use Rattle.order.specs.Stored.{elements};

use crate::crew::Work;
use order::ELEMENTS;

// s_i ≤ (t − 1): the activity is started by the time t − 1, when period t begins.
fn started_by(start: u32, time: u64) -> bool
    ensures { result ≡ started_by start time }
{
    u64::from(start) <= time
}

// s_i + d_i ≥ t: it is finished no sooner than t.
fn finished_no_sooner(start: u32, worked: u32, t: u64) -> bool
    ensures { result ≡ finished_no_sooner start worked t }
{
    u64::from(start) + u64::from(worked) >= t
}

// r_ik is added to the load of k, kind by kind.
fn add_demands(load: &mut [u64; 8], demands: &[u32; 8 * ELEMENTS], i: usize)
    requires { (i < elements) × (length load.old ≡ 8) × AllAtMost (i * 2 ^ 32) load.old }
    ensures { (load.new ≡ with_demands 8 (λ k. at demands.now (elements * k + i)) load.old)
        × AllAtMost ((i + 1) * 2 ^ 32) load.new }
{
    for (k, sum) in load.iter_mut().enumerate() {
        *sum += u64::from(demands[ELEMENTS * k + i]);
    }
}

impl<'a> Work<'a> {
    // The sum of r_ik over the activities i of A(s, t), for each kind k.
    pub fn period_load(&self, t: u64) -> [u64; 8]
        requires le_t { 1 ≤ t }
        ensures { result ≡ load_of (work_in self.now) t }
    {
        let mut load = [0u64; 8];
        for (i, (start, worked)) in self.crew.starts.iter().zip(self.crew.worked).enumerate() {
            // i ∈ A(s, t) when s_i ≤ (t − 1) ..
            if started_by(*start, t - 1) {
                // .. and s_i + d_i ≥ t
                if finished_no_sooner(*start, *worked, t) {
                    // then r_ik is added, for each kind k
                    add_demands(&mut load, self.demands, i);
                }
            }
        }
        load
    }
}
