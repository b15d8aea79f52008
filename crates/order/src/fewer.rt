// Arcs without one of them, and whether its pair follows from others.
ghost use Rattle.std.specs.Prelude.{◌≡◌, ◌<◌};
ghost use Rattle.order.specs.Stored.{elements};
ghost use Rattle.order.specs.Orders.{without_arc, some_before};

use crate::{Rows, Set, put_row, row};

// The arcs without that from one element to another.
#[tactic(auto, using(crate::proofs::Stored::number_of_lem), unfolding(crate::specs::Orders::without_arc))]
pub fn without_arc(arcs: &mut Rows, from: usize, to: usize)
    requires { (from < elements) × (to < elements) }
    ensures { arcs.new ≡ without_arc arcs.old from to }
{
    let r = row(arcs, from).without(to);
    put_row(arcs, from, r);
}

// Whether a member of a set is before j, by the sets of what each element is before.
#[tactic(auto, using(crate::proofs::Turns::member_below))]
pub fn some_before(rows: &Rows, w: Set, j: usize) -> bool
    requires { j < elements }
    ensures { result ≡ some_before rows.now w j }
{
    for k in w {
        if row(rows, k).has(j) {
            return true;
        }
    }
    false
}
