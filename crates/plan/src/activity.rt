// Activity records, type 1.
ghost use Rattle.std.specs.Prelude.{◌≡◌, List, ℕ, ◌≤◌, ◌<◌, length, OnOk};
ghost use Rattle.words.specs.model.Loops.{upto};
ghost use Rattle.order.specs.Stored.{elements};
ghost use Rattle.plan.specs.Records.{activities, activity_fields, demands_some, activity_timed, record_at};
ghost use Rattle.plan.specs.Causes.{activity_cause, first_refusal};
ghost use Rattle.plan.specs.model.Lists.{RecordsOf};
ghost use Rattle.plan.specs.model.Phases.{put_duration, put_demand, put_demands};

use crate::checks::check;
use crate::field::{all_zero, eight};
use crate::{ACTIVITIES, Cause, Record};
use order::ELEMENTS;
use records::field;

// Whether an activity record's fields keep their rules.
fn activity_fields(r: &Record, place: usize) -> bool
    ensures { result ≡ activity_fields place r.now }
{
    place < ACTIVITIES && usize::from(r[1]) == place + 1
}

// Whether an activity record demands something of one of the eight kinds.
fn demands_some(r: &Record) -> bool
    ensures { result ≡ demands_some r.now }
{
    eight(r).iter().any(|d| *d != 0)
}

// Whether an activity record demands something only if it takes time. (A milestone takes none.)
fn activity_timed(r: &Record) -> bool
    ensures { result ≡ activity_timed r.now }
{
    field::<2>(r, 2) != 0 || !demands_some(r)
}

// The cause of an activity record, by its type known to be one.
fn activity_cause(r: &Record, place: usize) -> Result<(), Cause>
    ensures { result ≡ activity_cause place r.now }
{
    check(activity_fields(r, place), Cause::Field(place))?;
    check(activity_timed(r), Cause::MilestoneDemand(place))?;
    check(all_zero(&r[20..]), Cause::Spare(place))
}

// The first cause among the activities.
pub fn activities_cause(found: &[Record]) -> Result<(), Cause>
    ensures few { OnOk result (length found.now ≤ activities) }
    ensures value { (s : List ℕ) → RecordsOf s found.now →
        result ≡ first_refusal (length found.now) (λ i. activity_cause i (record_at s i)) }
{
    for (place, r) in found.iter().enumerate() {
        activity_cause(r, place)?;
    }
    Ok(())
}

// The durations of the activities.
pub fn store_durations(activities: &[Record], durations: &mut [u32; ELEMENTS])
    requires { length activities.now ≤ elements }
    ensures { (s : List ℕ) → RecordsOf s activities.now →
        durations.new ≡ upto (put_duration s) (length activities.now) durations.old }
{
    for (i, r) in activities.iter().enumerate() {
        durations[i] = field::<2>(r, 2);
    }
}

// The eight demands of element i.
fn store_demands_of(r: &Record, i: usize, demands: &mut [u32; 8 * ELEMENTS])
    requires { i < elements }
    ensures { demands.new ≡ upto (put_demand r.now i) 8 demands.old }
{
    for (k, demand) in eight(r).iter().enumerate() {
        demands[ELEMENTS * k + i] = *demand;
    }
}

// The demands of the activities.
pub fn store_demands(activities: &[Record], demands: &mut [u32; 8 * ELEMENTS])
    requires { length activities.now ≤ elements }
    ensures { (s : List ℕ) → RecordsOf s activities.now →
        demands.new ≡ upto (put_demands s) (length activities.now) demands.old }
{
    for (i, r) in activities.iter().enumerate() {
        store_demands_of(r, i, demands);
    }
}
