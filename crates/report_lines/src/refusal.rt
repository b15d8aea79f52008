// The line of a refused plan.
ghost use Rattle.std.specs.Prelude.{◌≡◌, ◌++◌, map, suc, ◌+◌, ◌≤◌, length, take};
ghost use Rattle.words.specs.Listing.{members};
ghost use Rattle.order.specs.Stored.{elements, number_of};
ghost use Rattle.lines.specs.Text.{text, more};
ghost use Rattle.report_lines.specs.Lines.{refused_numbers, refused_line, slots, refused_room};

use lines::Draft;
use order::{ELEMENTS, Set};
use planner::{Cause, Values};

// A number, two values, and the members of a set.
const SLOTS: usize = 3 + ELEMENTS;

// The members of a set, ascending, as activities, behind the first n numbers. (`end` is counted, as it is the answer:
// of `iter_mut().zip(set)` no proof knows what it wrote, and with `enumerate` they would be counted again.)
#[tactic(auto, using(order::proofs::Turns::member_below))]
fn put_members(numbers: &mut [u64], n: usize, set: Set) -> usize
    requires { (slots ≤ length numbers.old) × (n ≤ 3) }
    ensures { (result ≤ slots) × (take result numbers.new ≡ take n numbers.old ++ map suc (members elements (number_of set))) }
{
    let mut end = n;
    for i in set {
        numbers[end] = i as u64 + 1;
        end += 1;
    }
    end
}

// The numbers of a cause.
fn put_cause(numbers: &mut [u64], c: Cause) -> usize
    requires { slots ≤ length numbers.old }
    ensures { (result ≤ slots) × (take result numbers.new ≡ refused_numbers c) }
{
    let r = planner::refusal_of(c);
    numbers[0] = r.number;
    match r.values {
        Values::Nothing => 1,
        Values::One(n) => {
            numbers[1] = n as u64;
            2
        }
        Values::Need { kind, need, set } => {
            numbers[1] = kind as u64;
            numbers[2] = u64::from(need);
            put_members(numbers, 3, set)
        }
    }
}

// Writes the line of a refused plan.
pub fn refused_text(draft: &mut Draft, c: Cause)
    requires { draft.old.at + refused_room ≤ length draft.old.out.now }
    ensures same_reference { draft.new.out.ghost_name ≡ draft.old.out.ghost_name }
    ensures written { text draft.new.at draft.new.out.now
        ≡ more (text draft.old.at draft.old.out.now) (refused_line c) }
    ensures upper_bound { draft.new.at ≤ length draft.new.out.now }
{
    let mut numbers = [0u64; SLOTS];
    let n = put_cause(&mut numbers, c);
    draft.put_line(b"refused", &numbers[..n]);
}
