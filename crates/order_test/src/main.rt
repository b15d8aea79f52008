// Prints the order of plans A to E of document 01, and of all elements in a line and on a circle.
#![tactic(auto)]

ghost use Rattle.std.specs.Prelude.{◌<◌};
ghost use Rattle.order.specs.Stored.{elements};

use order::{CELLS, ELEMENTS, Order, Rows, Set};
use std::io;

const LAST: usize = ELEMENTS - 1;

// The members of a set, ascending, numbered from 1 as activities are.
#[tactic(auto, using(order::proofs::Turns::member_below))]
fn print_members(rt: &impl Print, s: Set) -> io::Result<()> {
    for i in s {
        print!(rt; " {}", i + 1)?;
    }
    Ok(())
}

fn print_row(rt: &impl Print, o: Order, i: usize) -> io::Result<()>
    requires { i < elements }
{
    let s = o.after(i);
    print!(rt; "{} is before", i + 1)?;
    print_members(rt, s)?;
    println!(rt; ", {} in all", s.size())
}

#[tactic(auto, using(order::proofs::Sets::some_found))]
fn print_circle(rt: &impl Print, o: Order) -> io::Result<()> {
    match o.circle() {
        Some(i) => println!(rt; "circle at {}", i + 1),
        None => println!(rt; "no circle"),
    }
}

fn print_order(rt: &impl Print, o: Order) -> io::Result<()> {
    print_row(rt, o, 0)?;
    print_row(rt, o, 1)?;
    print_row(rt, o, 2)?;
    print_row(rt, o, 3)?;
    print_circle(rt, o)
}

fn print_test(rt: &impl Print, holds: bool) -> io::Result<()> {
    if holds {
        return println!(rt; "yes");
    }
    println!(rt; "no")
}

// The arcs from i to i + 1, for i below LAST, as rows; the last row is `end`. (By the index: see order's `Rows`.)
fn line(end: Set) -> Rows {
    let mut rows = [0; CELLS];
    for i in 0..LAST {
        order::put_row(&mut rows, i, Set::single(i + 1));
    }
    order::put_row(&mut rows, LAST, end);
    rows
}

fn main(rt: HostRuntime) -> io::Result<()> {
    println!(rt; "A")?;
    let a = Order::empty().with_arc(0, 1).with_arc(1, 3);
    print_order(&rt, a)?;
    println!(rt; "B")?;
    print_order(
        &rt,
        Order::empty().with_arc(0, 1).with_arc(0, 2).with_arc(0, 3),
    )?;
    println!(rt; "C")?;
    print_order(&rt, Order::empty())?;
    println!(rt; "D")?;
    print_order(
        &rt,
        Order::empty()
            .with_arc(0, 2)
            .with_arc(0, 3)
            .with_arc(1, 2)
            .with_arc(1, 3),
    )?;
    println!(rt; "E")?;
    print_order(&rt, Order::empty().with_arc(0, 1).with_arc(1, 0))?;
    println!(rt; "all in a line: the first before the last, the last before the first")?;
    let rows = line(Set::EMPTY);
    let o = Order::of(rows);
    print_test(&rt, o.before(0, LAST))?;
    print_test(&rt, o.before(LAST, 0))?;
    print_circle(&rt, o)?;
    println!(rt; "with an arc from the last to 3")?;
    print_circle(&rt, o.with_arc(LAST, 2))?;
    print_circle(&rt, Order::of(line(Set::single(2))))?;
    println!(rt; "with job arcs of A and the arc from 4 to 1 as a second table")?;
    let mut extra = [0; CELLS];
    order::put_row(&mut extra, 3, Set::single(0));
    print_order(&rt, Order::of(order::joined(a.after_rows(), extra)))
}
