// The flow of one kind, as records: one for each pair of nodes with positive units, ascending by from, then to.
ghost use Rattle.std.specs.Prelude.{◌≡◌, suc, ◌+◌, ◌≤◌, ◌<◌};
ghost use Rattle.std.specs.Int.{from_bool};
ghost use Rattle.order.specs.Orders.{is_before};
ghost use Rattle.order.specs.Rows.{after};
ghost use Rattle.order.specs.Stored.{elements};
ghost use Rattle.solver.specs.model.Network.{handed};
ghost use Rattle.solver.specs.model.Quote.{quote_of, flow_of};
ghost use Rattle.solver.specs.Sound.{asked};
ghost use Rattle.kinds.specs.Needs.{demands_for};
ghost use Rattle.kinds.specs.Flows.{Bounded, mark_of, pairs_from, pairs_of, kind_units};
ghost use Rattle.kinds.specs.model.Passing.{passing};
ghost use Rattle.kinds.specs.model.Writing.{Room, lent, put_pair, put_row, put_flow};

use crate::needs::demands_for;
use crate::units::Units;
use order::{ELEMENTS, Order, Rows, row};

// Whether the pair from a node to node j + 1 has the added mark, by the rows of the job order.
fn is_added(job: &Rows, m: usize, from: usize, j: usize) -> bool
    requires { (m ≤ elements) × (from ≤ m) × (j ≤ m) }
    ensures { from_bool result ≡ mark_of (after job.now) m from (suc j) }
{
    if from == 0 || j == m {
        return false;
    }
    !row(job, from - 1).has(j)
}

// The records of a flow under way: lent bytes, how many records are written to them, and the kind that they tell of.
#[derive(Drop)]
struct Run<'a> {
    out: &'a mut [u8],
    n: usize,
    kind: u8,
}

impl Run<'_> {
    // Writes the record of one pair, where its units are positive, behind those that are written.
    fn put_pair(&mut self, from: usize, to: usize, units: u32, added: bool)
        requires { (from < 256) × (to < 256) × (0 < units → Room (self.old.n + 1) self.old.out.now) }
        ensures same_reference { self.new.out.ghost_name ≡ self.old.out.ghost_name }
        ensures same_kind { self.new.kind ≡ self.old.kind }
        ensures written { lent self.new.n self.new.out.now
            ≡ put_pair self.old.kind from to units (from_bool added) (lent self.old.n self.old.out.now) }
    {
        if units == 0 {
            return;
        }
        records::append_flow(
            self.out,
            self.n,
            self.kind,
            from as u8,
            to as u8,
            units,
            u8::from(added),
        );
        self.n += 1;
    }

    // Writes the records of the pairs from one node, by what the elements hand over. (A turn is about the node j + 1.)
    fn put_row(&mut self, from: usize, units: &Units, job: &Rows)
        requires { (from ≤ units.now.m)
            × Room (self.old.n + pairs_from (passing units.now) (units.now.m + 2) from) self.old.out.now }
        ensures same_reference { self.new.out.ghost_name ≡ self.old.out.ghost_name }
        ensures same_kind { self.new.kind ≡ self.old.kind }
        ensures written { lent self.new.n self.new.out.now
            ≡ put_row self.old.kind (passing units.now) (mark_of (after job.now) units.now.m) units.now.m from
            (lent self.old.n self.old.out.now) }
    {
        for j in 0..units.m + 1 {
            let x = units.between(from, j);
            self.put_pair(from, j + 1, x, is_added(job, units.m, from, j));
        }
    }

    // Writes the records of all pairs. (A turn is about the node `from`.)
    fn put_flow(&mut self, units: &Units, job: &Rows)
        requires { Room (self.old.n + pairs_of (passing units.now) (units.now.m + 2)) self.old.out.now }
        ensures same_reference { self.new.out.ghost_name ≡ self.old.out.ghost_name }
        ensures written { lent self.new.n self.new.out.now
            ≡ put_flow self.old.kind (passing units.now) (mark_of (after job.now) units.now.m) units.now.m
            (lent self.old.n self.old.out.now) }
    {
        for from in 0..units.m + 1 {
            self.put_row(from, units, job);
        }
    }
}

// Writes the flow of kind k, of which `available` are available, to the front of the lent bytes, with the added marks
// by the job order. Gives the number of records.
pub fn write_flow(
    out: &mut [u8],
    order: Order,
    job: Order,
    demand: &[u32; 8 * ELEMENTS],
    k: usize,
    available: u32,
    m: usize,
) -> usize
    requires { (k < 8) × (m ≤ elements)
        × Bounded m (asked (demands_for demand.now k)) (handed (flow_of m order (demands_for demand.now k)))
        × ((quote_of m order (demands_for demand.now k)).need ≤ available)
        × Room (pairs_of (kind_units order demand.now k available m) (m + 2)) out.old }
    ensures { lent result out.new
        ≡ put_flow (k + 1) (kind_units order demand.now k available m) (mark_of (is_before job) m) m (lent 0 out.old) }
{
    let own = demands_for(demand, k);
    let mut flow: [u32; ELEMENTS * ELEMENTS] = [0; ELEMENTS * ELEMENTS];
    let quoted = solver::quote(order, m, &own, &mut flow);
    let need = quoted.need;
    let spare = available - need;
    let before = job.after_rows();
    let units = Units {
        m,
        demand: &own,
        flow: &flow,
        spare,
    };
    let kind = (k + 1) as u8;
    let mut run = Run { out, n: 0, kind };
    run.put_flow(&units, &before);
    run.n
}
