// Rows that stay transitive while they gain: what an arc adds to them, and what a way through an element does; and an
// order's rows, with further arcs.
ghost use Rattle.std.specs.Prelude.{◌≡◌, ◌<◌, length};
ghost use Rattle.order.specs.Stored.{elements, number_of, cells, RowsFit};
ghost use Rattle.order.specs.model.Growing.{grow_from};
ghost use Rattle.order.specs.model.Warshall.{passing_by, gaining, passing, ends_in, passing_over};
ghost use Rattle.order.specs.Orders.{after_rows, order_in};

use crate::{ELEMENTS, Rows, Set, put_row, row};

// What is before k becomes before all of `gain`. (By the index: a row is read and put as a set; see `Rows`.)
fn pass_by(rows: &mut Rows, k: usize, gain: Set)
    requires { k < elements }
    ensures { rows.new ≡ passing_by elements k (number_of gain) rows.old }
{
    for i in 0..ELEMENTS {
        let r = row(rows, i).with_pass(k, gain);
        put_row(rows, i, r);
    }
}

// x and what is before x become before all of `gain`.
#[tactic(auto, using(crate::proofs::Stored::number_of_lem))]
pub fn gain_all(rows: &mut Rows, x: usize, gain: Set)
    requires { x < elements }
    ensures { rows.new ≡ gaining elements x (number_of gain) rows.old }
{
    let r = row(rows, x).union(gain);
    put_row(rows, x, r);
    pass_by(rows, x, gain);
}

// Whatever is before k becomes before all that k is before.
#[tactic(auto, using(crate::proofs::Stored::number_of_lem))]
fn pass(rows: &mut Rows, k: usize)
    requires { k < elements }
    ensures { rows.new ≡ passing elements k rows.old }
{
    let gain = row(rows, k);
    pass_by(rows, k, gain);
}

// The elements at which an arc ends. (By the index: see `Rows`.)
fn ends_of(rows: &Rows) -> Set
    ensures { number_of result ≡ ends_in elements rows.now }
{
    let mut ends = Set::EMPTY;
    for i in 0..ELEMENTS {
        ends = ends.union(row(rows, i));
    }
    ends
}

// The same as `pass`, where an arc ends at k and k leads somewhere; else there is nothing to do.
#[tactic(auto, using(crate::proofs::Stored::number_of_lem))]
fn pass_over(rows: &mut Rows, ends: Set, k: usize)
    requires { k < elements }
    ensures { rows.new ≡ passing_over elements (number_of ends) k rows.old }
{
    if row(rows, k).is_empty() {
        return;
    }
    if ends.has(k) {
        pass(rows, k);
    }
}

// The rows of arcs become those of their order. (Warshall's closure: one element after the other becomes a way
// through. Most elements of a sparse plan lead nowhere, or nothing leads to them: those are passed over. In place,
// so that no rows are copied. By the index: see `Rows`.)
pub fn close(rows: &mut Rows)
    requires { (length rows.old ≡ cells elements) × RowsFit elements rows.old }
    ensures { rows.new ≡ after_rows (order_in rows.old) }
{
    let ends = ends_of(rows);
    for k in 0..ELEMENTS {
        pass_over(rows, ends, k);
    }
}

// The rows of an order become those of the order with the arcs from i to each member of `to` that it does not hold yet.
// (What an arc leads to is held when it is added, and is passed over as a set. The rows stay as they are until all that
// i gains is found: what an arc would have added to them is gained already.)
pub fn add_row(rows: &mut Rows, i: usize, to: Set)
    requires { (i < elements) × (length rows.old ≡ cells elements) × RowsFit elements rows.old }
    ensures { rows.new ≡ grow_from elements rows.old i (number_of to) }
{
    let mut w = to.minus(row(rows, i));
    if w.is_empty() {
        return;
    }
    let mut gain = Set::EMPTY;
    while let Some(j) = w.lowest() {
        gain = gain.union(row(rows, j).with(j));
        w = w.minus(gain);
    }
    gain_all(rows, i, gain);
}
