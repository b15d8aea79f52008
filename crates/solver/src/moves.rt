// The moves of a handover.
ghost use Rattle.std.specs.Prelude.{◌≡◌, ◌<◌};
ghost use Rattle.words.specs.model.Loops.{each};
ghost use Rattle.order.specs.Stored.{elements, number_of};
ghost use Rattle.solver.specs.model.Search.{takers_of};
ghost use Rattle.solver.specs.model.Network.{giver, leaders, network_of, move, joined, shifted, walk, augmented, handing, dropping, taken_back};

use crate::rounds::leading_of;
use crate::{Handover, Parents};
use order::{ELEMENTS, Set};

// The set with the member i, or without it where n is 0.
fn given(set: Set, i: usize, n: u32) -> Set
    requires { i < elements }
    ensures { number_of result ≡ giver (number_of set) i n }
{
    if n == 0 { set.without(i) } else { set.with(i) }
}

// What the elements of `set` hand over to j is taken back.
#[tactic(auto, using(order::proofs::Turns::member_below))]
fn take_from(flow: &mut [u32; ELEMENTS * ELEMENTS], set: Set, j: usize)
    requires { j < elements }
    ensures { flow.new ≡ each elements (dropping j) flow.old (number_of set) }
{
    for i in set {
        flow[i * ELEMENTS + j] = 0;
    }
}

impl Handover<'_> {
    // flow(i, j) becomes n.
    fn store(&mut self, i: usize, j: usize, n: u32)
        requires { (i < elements) × (j < elements) }
        ensures same_reference { self.new.flow.ghost_name ≡ self.old.flow.ghost_name }
        ensures value { network_of self.new ≡ move (network_of self.old) i j n }
    {
        self.flow[i * ELEMENTS + j] = n;
        let g = given(order::row(&self.givers, j), i, n);
        order::put_row(&mut self.givers, j, g);
    }

    // Slack of both copies becomes flow.
    fn join(&mut self, i: usize, j: usize)
        requires { (i < elements) × (j < elements) }
        ensures same_reference { self.new.flow.ghost_name ≡ self.old.flow.ghost_name }
        ensures value { network_of self.new ≡ joined (network_of self.old) i j }
    {
        let d = self.left[i].min(self.right[j]);
        let n = self.flow[i * ELEMENTS + j].wrapping_add(d);
        self.left[i] -= d;
        self.right[j] -= d;
        self.store(i, j, n);
    }

    // Slack moves from the right copy j to the right copy k, by the left copy i, which gives to k.
    fn shift(&mut self, i: usize, k: usize, j: usize)
        requires { ((i < elements) × (k < elements)) × (j < elements) }
        ensures same_reference { self.new.flow.ghost_name ≡ self.old.flow.ghost_name }
        ensures value { network_of self.new ≡ shifted (network_of self.old) i k j }
    {
        let from = self.flow[i * ELEMENTS + k];
        let d = self.right[j].min(from);
        self.right[j] -= d;
        self.right[k] = self.right[k].wrapping_add(d);
        self.store(i, k, from - d);
        let n = self.flow[i * ELEMENTS + j].wrapping_add(d);
        self.store(i, j, n);
    }

    // Slack moves from the right copy at which a search ended back to a root, which has no parent,
    // and becomes flow there.
    pub fn augment(&mut self, parents: &Parents, at: usize)
        requires { at < elements }
        ensures same_reference { self.new.flow.ghost_name ≡ self.old.flow.ghost_name }
        ensures value { network_of self.new ≡ augmented elements (takers_of parents.now.lefts) parents.now.rights (walk (network_of self.old) at) }
    {
        let mut j = at;
        for _ in 0..ELEMENTS {
            let i = parents.rights[j] % ELEMENTS;
            let Some(p) = parents.lefts[i] else {
                self.join(i, j);
                return;
            };
            // p is below ELEMENTS after a search; the remainder shows it.
            let k = p % ELEMENTS;
            self.shift(i, k, j);
            j = k;
        }
    }

    // Slack of the element i becomes flow to the element j, where both have some.
    fn pass(&mut self, i: usize, j: usize)
        requires { (i < elements) × (j < elements) }
        ensures same_reference { self.new.flow.ghost_name ≡ self.old.flow.ghost_name }
        ensures value { network_of self.new ≡ handing i (network_of self.old) j }
    {
        let d = self.left[i].min(self.right[j]);
        if d == 0 {
            return;
        }
        self.join(i, j);
    }

    // Slack of the element i becomes flow to each element of its row, lowest first, as long as it has some.
    #[tactic(auto, using(order::proofs::Turns::member_below))]
    pub fn hand(&mut self, row: Set, i: usize)
        requires { i < elements }
        ensures same_reference { self.new.flow.ghost_name ≡ self.old.flow.ghost_name }
        ensures value { network_of self.new ≡ each elements (handing i) (network_of self.old) (number_of row) }
    {
        for j in row {
            if self.left[i] == 0 {
                return;
            }
            self.pass(i, j);
        }
    }

    // What is handed over is taken back. (The sets of those that give stay as they are.)
    #[tactic(auto, using(order::proofs::Turns::member_below))]
    pub fn take_back(&mut self)
        ensures same_reference { self.new.flow.ghost_name ≡ self.old.flow.ghost_name }
        ensures units { self.new.flow.now ≡ taken_back self.old.givers self.old.flow.now (leaders elements self.old.givers) }
    {
        for j in leading_of(&self.givers, ELEMENTS) {
            take_from(self.flow, order::row(&self.givers, j), j);
        }
    }
}
