// The causes' numbers.
ghost use Rattle.std.specs.Prelude.{◌≡◌};
ghost use Rattle.plan.specs.Numbers.{at_place, told_by};

use crate::{Cause, Told};

// A number with the record's place.
fn at_place(number: u64, place: usize) -> Told
    ensures { result ≡ at_place number place }
{
    Told {
        number,
        place: Some(place),
    }
}

// What a cause tells. (A new cause has its line here and in `told_by`; whoever shows causes goes by these. They are
// document 01's numbers, in a function that docs and specs/Numbers name.)
pub fn told_by(c: Cause) -> Told
    ensures { result ≡ told_by c }
{
    match c {
        Cause::Length => Told {
            number: 1,
            place: None,
        },
        Cause::RecordType(p) => at_place(2, p),
        Cause::Field(p) => at_place(3, p),
        Cause::MilestoneDemand(p) => at_place(12, p),
        Cause::Spare(p) => at_place(4, p),
        Cause::RepeatedArc(p) => at_place(13, p),
    }
}
