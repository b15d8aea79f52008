// The units that pass from node to node, by what the elements hand over. Node 0 is the start, node i + 1 the
// element i, node m + 1 the end.
ghost use Rattle.std.specs.Prelude.{◌≡◌, suc, ◌≤◌, ◌<◌};
ghost use Rattle.order.specs.Stored.{elements};
ghost use Rattle.flow_math.specs.Handover.{row, col};
ghost use Rattle.solver.specs.model.Network.{handed};
ghost use Rattle.solver.specs.Sound.{asked};
ghost use Rattle.kinds.specs.Flows.{Bounded};

use order::ELEMENTS;

// What m elements with these demands hand over, where `spare` units pass from the start straight to the end.
#[derive(Clone, Copy)]
pub struct Units<'a> {
    pub m: usize,
    pub demand: &'a [u32; ELEMENTS],
    pub flow: &'a [u32; ELEMENTS * ELEMENTS],
    pub spare: u32,
    ghost within: { m ≤ elements },
    ghost bounded: { Bounded m (asked demand.now) (handed flow.now) },
}

impl Units<'_> {
    ghost use Rattle.kinds.specs.model.Passing.{passing};

    // What the element i hands over: its row of the table.
    fn handed_by(&self, i: usize) -> u32
        requires { i < self.now.m }
        ensures { result ≡ row self.now.m (handed self.now.flow.now) i }
    {
        let flow = self.flow;
        let start = i * ELEMENTS;
        flow[start..start + self.m].iter().sum()
    }

    // What the element j takes over: its column of the table.
    fn handed_to(&self, j: usize) -> u32
        requires { j < self.now.m }
        ensures { result ≡ col self.now.m (handed self.now.flow.now) j }
    {
        let flow = self.flow;
        let (rows, _) = flow.as_chunks::<ELEMENTS>();
        let mut x: u32 = 0;
        for row in &rows[..self.m] {
            x += row[j];
        }
        x
    }

    // The units from the start to node j + 1.
    fn from_start(&self, j: usize) -> u32
        requires { j ≤ self.now.m }
        ensures { result ≡ passing self.now 0 (suc j) }
    {
        if j == self.m {
            return self.spare;
        }
        self.demand[j] - self.handed_to(j)
    }

    // The units from the element i to node j + 1.
    fn from_element(&self, i: usize, j: usize) -> u32
        requires { (i < self.now.m) × (j ≤ self.now.m) }
        ensures { result ≡ passing self.now (suc i) (suc j) }
    {
        if j == self.m {
            return self.demand[i] - self.handed_by(i);
        }
        self.flow[i * ELEMENTS + j]
    }

    // The units from a node to node j + 1.
    pub fn between(&self, from: usize, j: usize) -> u32
        requires { (from ≤ self.now.m) × (j ≤ self.now.m) }
        ensures { result ≡ passing self.now from (suc j) }
    {
        if from == 0 {
            return self.from_start(j);
        }
        self.from_element(from - 1, j)
    }
}
