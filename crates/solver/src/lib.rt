// The need of one kind: the greatest demand of elements of which no two are ordered, with a set that has it and a
// handover that shows it. The order comes as the order crate's struct. `quote` is the way in; what it promises is
// `SoundQuote` of specs/Sound.antt.
#![tactic(auto)]

ghost use Rattle.std.specs.Prelude.{◌≡◌, ◌≤◌};
ghost use Rattle.order.specs.Stored.{elements, number_of};
ghost use Rattle.solver.specs.model.Search.{looked};
ghost use Rattle.solver.specs.model.Network.{leaders, network, network_of};
ghost use Rattle.solver.specs.model.Solve.{blank_rows, ranked};
ghost use Rattle.solver.specs.model.Quote.{unused, copied, amount, told, untouched, outcome, Clean, quote_in, flow_in, quote_of, flow_of};

use order::{CELLS, ELEMENTS, Order, Rows, Set};
pub use rounds::ranks;

mod moves;
mod reach;
mod rounds;

// What a search carries from turn to turn: givers to go on from, now and next, the givers and takers seen, and the
// taker that it ended at, if it has found one.
#[derive(Clone, Copy)]
struct Search {
    frontier: Set,
    next: Set,
    left: Set,
    right: Set,
    at: Option<usize>,
}

// Who led a search to each element: to a giver the taker, if it did not begin there, and to a taker the giver.
#[derive(Clone, Copy)]
struct Parents {
    lefts: [Option<usize>; ELEMENTS],
    rights: [usize; ELEMENTS],
}

// A handover under way: the units at i * ELEMENTS + j, for each taker the set of those that give to it, and what
// givers and takers have left.
#[derive(Drop)]
struct Handover<'a> {
    flow: &'a mut [u32; ELEMENTS * ELEMENTS],
    givers: Rows,
    left: [u32; ELEMENTS],
    right: [u32; ELEMENTS],
}

// An order of m elements, by its rows, with what the rounds ask of it, for all kinds of a plan the same: its ranking,
// the numbers for which that has elements, and the elements that have some after them.
#[derive(Clone, Copy)]
pub struct Ranking<'a> {
    rows: &'a Rows,
    ranks: &'a Rows,
    m: usize,
    numbers: Set,
    able: Set,
    ghost within: { m ≤ elements },
    ghost ranks_of: { ranks.now ≡ ranked m rows.now },
    ghost numbers_of: { number_of numbers ≡ leaders elements ranks.now },
    ghost able_of: { number_of able ≡ leaders m rows.now },
}

// The need, and a set of pairwise unrelated elements that has it.
#[derive(Clone, Copy)]
pub struct Quoted {
    pub need: u32,
    pub set: Set,
}

// Takes back what the m first elements hand over, where the others hand over nothing: so a table of units serves
// for one quote after another.
pub fn clear(flow: &mut [u32; ELEMENTS * ELEMENTS], m: usize)
    requires { (m ≤ elements) × Clean m flow.old }
    ensures { flow.new ≡ unused }
{
    let end = m * ELEMENTS;
    flow[..end].fill(0);
}

// The m first demands, in an array of the solver's own. (That an array behind a reference has its entries no proof
// can cite; of this one it can.)
fn copy(a: &[u32; ELEMENTS], m: usize) -> [u32; ELEMENTS]
    requires { m ≤ elements }
    ensures { result ≡ copied m a.now }
{
    let mut b: [u32; ELEMENTS] = [0; ELEMENTS];
    b[..m].copy_from_slice(&a[..m]);
    b
}

// The sum of the m first entries.
fn total(a: &[u32; ELEMENTS], m: usize) -> u32
    requires { m ≤ elements }
    ensures { result ≡ amount m a.now }
{
    let mut t: u32 = 0;
    for x in &a[..m] {
        t = t.wrapping_add(*x);
    }
    t
}

// What the last search tells: what is left is the need, and the elements `wanted` that it reached as
// givers and not as takers have it.
fn told(s: Search, left: &[u32; ELEMENTS], wanted: Set, m: usize) -> Quoted
    requires { m ≤ elements }
    ensures { result ≡ told m left.now (looked s) (number_of wanted) }
{
    let need = total(left, m);
    let set = s.left.minus(s.right).meet(wanted);
    Quoted { need, set }
}

impl<'a> Handover<'a> {
    // Nothing is handed over yet, and the m first elements have their demands left. `flow` comes in at 0.
    fn start(
        flow: &'a mut [u32; ELEMENTS * ELEMENTS],
        demand: &[u32; ELEMENTS],
        m: usize,
    ) -> Handover<'a>
        requires { m ≤ elements }
        ensures same_reference { result.flow.ghost_name ≡ flow.entry.ghost_name }
        ensures value { network_of result ≡ network flow.old blank_rows (copied m demand.now) (copied m demand.now) }
    {
        let left = copy(demand, m);
        Handover {
            flow,
            givers: [0; CELLS],
            left,
            right: left,
        }
    }

    // Hands over all that can be, from nothing, and tells what is left.
    fn quote(&mut self, ranking: &Ranking, demand: &[u32; ELEMENTS]) -> Quoted
        requires { network_of self.old ≡ untouched ranking.now.m demand.now }
        ensures same_reference { self.new.flow.ghost_name ≡ self.old.flow.ghost_name }
        ensures quoted { result ≡ quote_in ranking.now.m ranking.now.rows.now demand.now }
        ensures value { network_of self.new ≡ (outcome ranking.now.m ranking.now.rows.now demand.now).now }
    {
        let s = self.solve(ranking);
        told(s, &self.left, order::places(demand, ranking.m), ranking.m)
    }
}

impl<'a> Ranking<'a> {
    // Of an order that is given by its rows, and its ranking.
    pub fn of(rows: &'a Rows, ranks: &'a Rows, m: usize) -> Ranking<'a>
        requires { (m ≤ elements) × (ranks.now ≡ ranked m rows.now) }
        ensures { (result.rows.now ≡ rows.now) × (result.m ≡ m) }
    {
        let numbers = rounds::leading_of(ranks, ELEMENTS);
        let able = rounds::leading_of(rows, m);
        Ranking {
            rows,
            ranks,
            m,
            numbers,
            able,
        }
    }

    // The need, with a demand for each of the m elements (the others are passed over), and, in `flow` at
    // i * ELEMENTS + j, what i hands over to j. `flow` comes in at 0.
    #[tactic(auto, unfolding(crate::specs::model::Quote::flow_in))]
    fn quote(&self, demand: &[u32; ELEMENTS], flow: &mut [u32; ELEMENTS * ELEMENTS]) -> Quoted
        requires { flow.old ≡ unused }
        ensures { (result ≡ quote_in self.now.m self.now.rows.now demand.now) × (flow.new ≡ flow_in self.now.m self.now.rows.now demand.now) }
    {
        Handover::start(flow, demand, self.m).quote(self, demand)
    }

    // The same, where the handover is not asked for: `flow` goes out at 0, as it came in.
    pub fn weigh(&self, demand: &[u32; ELEMENTS], flow: &mut [u32; ELEMENTS * ELEMENTS]) -> Quoted
        requires { flow.old ≡ unused }
        ensures { (result ≡ quote_in self.now.m self.now.rows.now demand.now) × (flow.new ≡ unused) }
    {
        let mut handover = Handover::start(flow, demand, self.m);
        let quoted = handover.quote(self, demand);
        handover.take_back();
        quoted
    }
}

// The same of an order.
pub fn quote(
    order: Order,
    m: usize,
    demand: &[u32; ELEMENTS],
    flow: &mut [u32; ELEMENTS * ELEMENTS],
) -> Quoted
    requires { (m ≤ elements) × (flow.old ≡ unused) }
    ensures { (result ≡ quote_of m order demand.now) × (flow.new ≡ flow_of m order demand.now) }
{
    let rows = order.after_rows();
    let ranks = ranks(&rows, m);
    Ranking::of(&rows, &ranks, m).quote(demand, flow)
}
