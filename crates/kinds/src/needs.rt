// The needs of all kinds, and the lowest kind that needs more than there is.
ghost use Rattle.std.specs.Prelude.{◌≡◌, ◌≤◌, ◌<◌, length};
ghost use Rattle.order.specs.Stored.{elements};
ghost use Rattle.words.specs.Tables.{over};
ghost use Rattle.kinds.specs.Needs.{demands_for, needs_for, lowest_overload, some_overload};

use crate::Overload;
use order::{ELEMENTS, Order};
use solver::Ranking;

// The demands of kind k alone.
pub fn demands_for(demand: &[u32; 8 * ELEMENTS], k: usize) -> [u32; ELEMENTS]
    requires { k < 8 }
    ensures { result ≡ demands_for demand.now k }
{
    let mut own: [u32; ELEMENTS] = [0; ELEMENTS];
    let start = ELEMENTS * k;
    own.copy_from_slice(&demand[start..start + ELEMENTS]);
    own
}

// Writes the needs of the first n kinds to the front of the lent numbers. (What depends on the order alone
// is found once for all kinds. An order, m and demands stand beside one another in this crate's public functions: they
// are fields of planner's, and a struct of three references would be made for one call. What lies behind the first n
// numbers the contract says too.)
pub fn put_needs(out: &mut [u32], order: Order, m: usize, demand: &[u32; 8 * ELEMENTS], n: usize)
    requires { (m ≤ elements) × (n ≤ 8) × (n ≤ length out.old) }
    ensures { out.new ≡ over n (needs_for m order demand.now n) out.old }
{
    let rows = order.after_rows();
    let ranks = solver::ranks(&rows, m);
    let ranking = Ranking::of(&rows, &ranks, m);
    let mut flow: [u32; ELEMENTS * ELEMENTS] = [0; ELEMENTS * ELEMENTS];
    for (k, need) in out[..n].iter_mut().enumerate() {
        let own = demands_for(demand, k);
        let quoted = ranking.weigh(&own, &mut flow);
        *need = quoted.need;
    }
}

// The lowest of the first n kinds that needs more than there is, or none. (Not inlined: in Trim, which asks it twice,
// its table of units would take the stack twice.)
#[inline(never)]
pub fn lowest_overload(
    order: Order,
    m: usize,
    demand: &[u32; 8 * ELEMENTS],
    available: &[u32; 8],
    n: usize,
) -> Option<Overload>
    requires { (m ≤ elements) × (n ≤ 8) }
    ensures { result ≡ some_overload n (lowest_overload m order demand.now available.now n) }
{
    let rows = order.after_rows();
    let ranks = solver::ranks(&rows, m);
    let ranking = Ranking::of(&rows, &ranks, m);
    let mut flow: [u32; ELEMENTS * ELEMENTS] = [0; ELEMENTS * ELEMENTS];
    for (k, limit) in available[..n].iter().enumerate() {
        let own = demands_for(demand, k);
        let quoted = ranking.weigh(&own, &mut flow);
        let set = quoted.set;
        let need = quoted.need;
        if *limit < need {
            return Some(Overload { kind: k, need, set });
        }
    }
    None
}
