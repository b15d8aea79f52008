// The search for a way to hand over more, level by level, by sets.
ghost use Rattle.std.specs.Prelude.{◌≡◌, ◌<◌};
ghost use Rattle.words.specs.model.Loops.{each};
ghost use Rattle.order.specs.Sets.{lowest_of};
ghost use Rattle.order.specs.Stored.{elements, number_of};
ghost use Rattle.solver.specs.model.Search.{Found, takers_of, marks, seen, visit};
ghost use Rattle.solver.specs.model.Search.{reached, reached_of, advance, begun, reach};

use crate::{Parents, Search};
use order::{ELEMENTS, Rows, Set};

// Each element of `set` gets the parent `from`.
#[tactic(auto, using(order::proofs::Turns::member_below))]
pub fn mark<T: Copy>(parents: &mut [T; ELEMENTS], set: Set, from: T)
    ensures { parents.new ≡ marks parents.old (number_of set) from }
{
    for b in set {
        parents[b] = from;
    }
}

// The givers of the elements of `set` join those `known`: each new one gets the element as its parent.
#[tactic(auto, using(order::proofs::Turns::member_below))]
pub fn spread(givers: &Rows, parents: &mut [Option<usize>; ELEMENTS], set: Set, known: Set) -> Set
    ensures { seen (number_of result) (takers_of parents.new) ≡ each elements (visit givers.now) (seen (number_of known) (takers_of parents.old)) (number_of set) }
{
    let mut s = known;
    for j in set {
        let back = order::row(givers, j).minus(s);
        mark(parents, back, Some(j));
        s = s.union(back);
    }
    s
}

// One turn of a search, at the lowest element i of its frontier.
fn turn(
    rows: &Rows,
    givers: &Rows,
    slack: Set,
    parents: &mut Parents,
    s: Search,
    i: usize,
) -> Search
    requires { (i ≡ lowest_of s.frontier) × (i < elements) }
    ensures within { Found result }
    ensures value { reached_of result parents.new ≡ advance rows.now givers.now (number_of slack) (reached_of s parents.old) }
{
    let known = s.left;
    let new = order::row(rows, i).minus(s.right);
    mark(&mut parents.rights, new, i);
    let right = s.right.union(new);
    if let Some(at) = new.meet(slack).lowest() {
        return Search {
            frontier: Set::EMPTY,
            next: Set::EMPTY,
            left: known,
            right,
            at: Some(at),
        };
    }
    let left = spread(givers, &mut parents.lefts, new, known);
    let next = s.next.union(left.minus(known));
    let rest = s.frontier.without_lowest();
    if rest.is_empty() {
        Search {
            frontier: next,
            next: Set::EMPTY,
            left,
            right,
            at: None,
        }
    } else {
        Search {
            frontier: rest,
            next,
            left,
            right,
            at: None,
        }
    }
}

// A search from the roots, of which only those in `able` lead on, level by level: it ends at a right copy with slack,
// or where nothing new is reached.
pub fn seek(
    rows: &Rows,
    givers: &Rows,
    able: Set,
    roots: Set,
    slack: Set,
    parents: &mut Parents,
) -> Search
    ensures within { Found result }
    ensures value { reached_of result parents.new ≡ reach elements rows.now givers.now (number_of slack) (reached (begun (number_of able) (number_of roots)) (takers_of parents.old.lefts) parents.old.rights) }
{
    let mut s = Search {
        frontier: roots.meet(able),
        next: Set::EMPTY,
        left: roots,
        right: Set::EMPTY,
        at: None,
    };
    for _ in 0..ELEMENTS {
        let Some(i) = s.frontier.lowest() else {
            return s;
        };
        s = turn(rows, givers, slack, parents, s, i);
    }
    s
}
