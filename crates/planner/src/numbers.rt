// The causes' numbers.
ghost use Rattle.std.specs.Prelude.{◌≡◌};
ghost use Rattle.planner.specs.Numbers.{with_one, refusal_of};

use crate::{Cause, Refusal, Values};

// A number with one value. (Plan's `at_place` for a struct of its own.)
fn with_one(number: u64, value: usize) -> Refusal
    ensures { result ≡ with_one number value }
{
    Refusal {
        number,
        values: Values::One(value),
    }
}

// What a refusal tells. (A new cause has its line here and in `refusal_of`; whoever shows causes goes by these. They
// are document 01's numbers, in a function that docs and specs/Numbers name.)
pub fn refusal_of(c: Cause) -> Refusal
    ensures { result ≡ refusal_of c }
{
    match c {
        Cause::Unreadable(u) => {
            let t = plan::told_by(u);
            Refusal {
                number: t.number,
                values: t.place.map_or(Values::Nothing, Values::One),
            }
        }
        Cause::JobCircle(i) => with_one(5, i),
        Cause::PlanCircle(i) => with_one(6, i),
        Cause::Overloaded { kind, need, set } => Refusal {
            number: 7,
            values: Values::Need { kind, need, set },
        },
        Cause::NoKind(n) => with_one(8, n),
        Cause::Short(n) => with_one(9, n),
        Cause::Lists(m) => with_one(10, m),
        Cause::NoPage(n) => with_one(11, n),
    }
}
