// Which element comes before which, and sets of elements.
#![tactic(auto)]

ghost use Rattle.std.specs.Prelude.{◌≡◌, ◌%◌, ◌^◌, ◌<◌, ◌≤◌, length, ◌==◌};
ghost use Rattle.order.specs.Stored.{elements, bound, cells, row, put_row, set_of, number_of, RowsFit};
ghost use Rattle.order.specs.Sets.{member, empty_set, with_element, without_element, union_of, meet_of, minus_of};
ghost use Rattle.order.specs.Sets.{size_of, lowest_of, found, without_lowest};
ghost use Rattle.order.specs.model.Warshall.{passed};
ghost use Rattle.order.specs.model.Places.{positive};
ghost use Rattle.order.specs.Orders.{empty_order, extended, extended_by, is_before, after_of, after_rows, circle_of};
ghost use Rattle.order.specs.Orders.{order_in, joined_rows};

pub use fewer::{some_before, without_arc};
use halves::places_word;
use transitive::{add_row, close, gain_all};

mod fewer;
mod halves;
mod members;
mod transitive;

// How many elements there are. (That an index is below this stands in each contract: a type for it would ask more of
// callers, and be taken apart at each use. Tables are arrays of this width, with a count beside them: there is no
// heap.)
pub const ELEMENTS: usize = 64;

// How many words a table of ELEMENTS sets takes.
pub const CELLS: usize = ELEMENTS;

// A table of sets, one for each element; `row` and `put_row` read and write it. (Of words, not of sets: C lends such
// tables, and the definitions and theorems that go by `row` speak of lists of words. So loops go by the index.)
pub type Rows = [words::Word; CELLS];

// A set of elements: bit i of the word stands for the element i.
#[derive(Clone, Copy, PartialEq, Eq)]
pub struct Set {
    word: words::Word,
}

#[tactic(auto, unfolding(crate::specs::Stored::number_of, crate::specs::Stored::set_of, crate::specs::Stored::bound))]
impl Set {
    // The set without elements.
    pub const EMPTY: Set = Set { word: 0 };

    // The set of all elements.
    pub const ALL: Set = Set { word: u64::MAX };

    // Whether i is a member.
    pub fn has(self, i: usize) -> bool
        requires { i < elements }
        ensures { result ≡ member self i }
    {
        words::has(self.word, i)
    }

    // Whether there is no member. (A loop over the members learns by its test, too, that the number of the set
    // has a digit for each element.)
    pub fn is_empty(self) -> bool
        ensures { (result ≡ (number_of self == 0)) × (number_of self < bound) }
    {
        self.word == 0
    }

    // The set with the member i.
    pub fn with(self, i: usize) -> Set
        requires { i < elements }
        ensures { result ≡ with_element self i }
    {
        Set {
            word: words::with_bit(self.word, i),
        }
    }

    // The set without the member i.
    pub fn without(self, i: usize) -> Set
        requires { i < elements }
        ensures { result ≡ without_element self i }
    {
        Set {
            word: words::without_bit(self.word, i),
        }
    }

    // The set of one element.
    pub fn single(i: usize) -> Set
        requires { i < elements }
        ensures { result ≡ with_element empty_set i }
    {
        Set::EMPTY.with(i)
    }

    // The members of either set.
    pub fn union(self, other: Set) -> Set
        ensures { result ≡ union_of self other }
    {
        Set {
            word: self.word | other.word,
        }
    }

    // The members of both sets.
    pub fn meet(self, other: Set) -> Set
        ensures { result ≡ meet_of self other }
    {
        Set {
            word: self.word & other.word,
        }
    }

    // The members of this set that the other does not have.
    pub fn minus(self, other: Set) -> Set
        ensures { result ≡ minus_of self other }
    {
        Set {
            word: words::without(self.word, other.word),
        }
    }

    // The set, with all of `gain` where it has the member k. (In place of a jump, a word of equal digits picks what is
    // gained: this is what the loops over rows do at each row.)
    fn with_pass(self, k: usize, gain: Set) -> Set
        requires { k < elements }
        ensures { number_of result ≡ passed k (number_of gain) (number_of self) }
    {
        let all = ((self.word >> k) % 2).wrapping_neg();
        Set {
            word: self.word | (gain.word & all),
        }
    }

    // The elements 0 to 63, as a word: bit i stands for the element i.
    pub fn first_word(self) -> u64
        ensures { result ≡ number_of self % 2 ^ 64 }
    {
        self.word
    }

    // How many members there are.
    pub fn size(self) -> usize
        ensures { result ≡ size_of self }
    {
        words::size(self.word)
    }

    // The lowest member. (A loop learns by this, too, that the number of the set has a digit for each element.)
    pub fn lowest(self) -> Option<usize>
        ensures { (result ≡ found (lowest_of self)) × (number_of self < bound) }
    {
        let word = self.word;
        (word != 0).then_some(words::lowest(word))
    }

    // The set without its lowest member; where there is none, the same set.
    pub fn without_lowest(self) -> Set
        ensures { result ≡ without_lowest self }
    {
        let word = self.word;
        if word == 0 {
            return self;
        }
        Set {
            word: words::without_lowest(word),
        }
    }
}

// Those of the m first places of a list at which it is not 0.
#[tactic(auto, unfolding(crate::specs::Stored::number_of))]
pub fn places(a: &[u32; ELEMENTS], m: usize) -> Set
    requires { m ≤ elements }
    ensures { number_of result ≡ positive m a.now }
{
    Set {
        word: places_word(a, m),
    }
}

// The set in row i.
#[tactic(auto, unfolding(crate::specs::Stored::row, crate::specs::Stored::set_of))]
pub fn row(rows: &Rows, i: usize) -> Set
    requires { i < elements }
    ensures { result ≡ set_of (row rows.now i) }
{
    Set { word: rows[i] }
}

// The set in row i becomes s.
#[tactic(auto, unfolding(crate::specs::Stored::put_row, crate::specs::Stored::number_of))]
pub fn put_row(rows: &mut Rows, i: usize, s: Set)
    requires { i < elements }
    ensures { rows.new ≡ put_row rows.old i (number_of s) }
{
    rows[i] = s.word;
}

// Which element is before which: row i is the set of the elements that i is before.
#[derive(Clone, Copy)]
pub struct Order {
    rows: Rows,
}

#[tactic(auto, unfolding(crate::specs::Stored::cells, crate::specs::Orders::after_rows))]
impl Order {
    // The order without arcs.
    pub fn empty() -> Self
        ensures { result ≡ empty_order }
    {
        Order { rows: [0; CELLS] }
    }

    // The order with one arc more: whatever is `from`, or before it, is now also before `to`
    // and all that `to` is before.
    pub fn with_arc(self, from: usize, to: usize) -> Self
        requires { (from < elements) × (to < elements) }
        ensures { result ≡ extended self from to }
    {
        let mut rows = self.rows;
        let gain = row(&rows, to).with(to);
        gain_all(&mut rows, from, gain);
        Order { rows }
    }

    // The order with further arcs, given as rows: each arc that it does not hold yet is added. (From the last row
    // down: in a plan that is numbered along its order the row of an arc's end is then complete, and most of the arcs
    // after it are held already. By the index: see `Rows`.)
    pub fn with_arcs(self, arcs: Rows) -> Self
        ensures { result ≡ extended_by self arcs }
    {
        let mut rows = self.rows;
        for i in (0..ELEMENTS).rev() {
            add_row(&mut rows, i, row(&arcs, i));
        }
        Order { rows }
    }

    // Whether i is before j.
    #[tactic(auto, using(crate::proofs::Stored::number_of_lem))]
    pub fn before(self, i: usize, j: usize) -> bool
        requires { (i < elements) × (j < elements) }
        ensures { result ≡ is_before self i j }
    {
        row(&self.rows, i).has(j)
    }

    // All that i is before.
    pub fn after(self, i: usize) -> Set
        requires { i < elements }
        ensures { result ≡ after_of self i }
    {
        row(&self.rows, i)
    }

    // The sets of all that each element is before.
    pub fn after_rows(self) -> Rows
        ensures { result ≡ after_rows self }
    {
        self.rows
    }

    // The lowest element that is before itself. (By the index: see `Rows`.)
    pub fn circle(self) -> Option<usize>
        ensures { result ≡ found (circle_of self) }
    {
        (0..ELEMENTS).find(|&i| row(&self.rows, i).has(i))
    }

    // The order of arcs that are given as rows: from i to each member of row i.
    pub fn of(arcs: Rows) -> Self
        ensures { result ≡ order_in arcs }
    {
        let mut rows = arcs;
        close(&mut rows);
        Order { rows }
    }

    // The order of arcs that are given as rows, which are closed in place: each becomes the set of all that its element
    // is before.
    pub fn closing(arcs: &mut Rows) -> Self
        requires { (length arcs.old ≡ cells elements) × RowsFit elements arcs.old }
        ensures value { result ≡ order_in arcs.old }
        ensures arcs_after { arcs.new ≡ after_rows (order_in arcs.old) }
    {
        close(arcs);
        Order { rows: *arcs }
    }
}

// Two tables of arcs together. (By the index: see `Rows`.)
pub fn joined(a: Rows, b: Rows) -> Rows
    ensures { result ≡ joined_rows a b }
{
    let mut rows = a;
    for i in 0..ELEMENTS {
        let r = row(&rows, i).union(row(&b, i));
        put_row(&mut rows, i, r);
    }
    rows
}
