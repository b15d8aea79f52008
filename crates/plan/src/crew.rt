// The crew record, type 2.
ghost use Rattle.std.specs.Prelude.{◌≡◌};
ghost use Rattle.plan.specs.Records.{crew_fields, crew_spare};
ghost use Rattle.plan.specs.Causes.{crew_cause};

use crate::checks::check;
use crate::field::all_zero;
use crate::{Cause, Record, RecordType};
use order::ELEMENTS;

// Whether a crew record's fields keep their rules, and the demands beyond its kinds are zero.
fn crew_fields(demand: &[u32; 8 * ELEMENTS], r: &Record) -> bool
    ensures { result ≡ crew_fields demand.now r.now }
{
    let k = usize::from(r[1]);
    if k == 0 || 8 < k {
        return false;
    }
    all_zero(&r[4 + 2 * k..20]) && demand[ELEMENTS * k..].iter().all(|d| *d == 0)
}

// Whether a crew record's spare bytes are zero.
fn crew_spare(r: &Record) -> bool
    ensures { result ≡ crew_spare r.now }
{
    all_zero(&r[2..4]) && all_zero(&r[20..])
}

// The cause of the record that has to be the crew record.
pub fn crew_cause(demand: &[u32; 8 * ELEMENTS], r: &Record, place: usize) -> Result<(), Cause>
    ensures { result ≡ crew_cause place demand.now r.now }
{
    check(RecordType::Crew.is_of(r), Cause::RecordType(place))?;
    check(crew_fields(demand, r), Cause::Field(place))?;
    check(crew_spare(r), Cause::Spare(place))
}
