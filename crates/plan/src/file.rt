// A plan file from its first record to its last.
ghost use Rattle.std.specs.Prelude.{◌≡◌, List, ℕ, ◌+◌, ◌-◌, ◌≤◌, length, replicate};
ghost use Rattle.order.specs.Stored.{elements, cells};
ghost use Rattle.plan.specs.Records.{record_at, record_count, activity_count, leading};
ghost use Rattle.plan.specs.Meaning.{Readable};
ghost use Rattle.plan.specs.model.Reads.{outcome, given};
ghost use Rattle.plan.specs.model.Lists.{RecordsOf, type_number};
ghost use Rattle.plan.specs.model.Phases.{file_of, rest_of};
ghost use Rattle.plan.specs.Causes.{is_length};

use crate::activity::{activities_cause, store_demands, store_durations};
use crate::arc::read_arcs;
use crate::crew::crew_cause;
use crate::field::eight;
use crate::{Cause, Plan, Record, RecordType};

// The records of a file. (Definitions are of bytes: so contracts say `RecordsOf s records.now →`, each for itself. A
// slice of arrays is std's, and takes no `Model` of ours. Below the reader m stands beside arrays of the width.)
pub fn records_of(s: &[u8]) -> &[Record]
    ensures value { RecordsOf s.now result.now }
    ensures number { length result.now ≡ record_count s.now }
{
    let (records, _) = s.as_chunks::<24>();
    records
}

// How many records have a type, up to the first that has another.
pub fn leading_records(records: &[Record], of: RecordType) -> usize
    ensures value { (s : List ℕ) → RecordsOf s records.now →
        result ≡ leading (type_number of) (length records.now) s }
    ensures upper_bound { result ≤ length records.now }
{
    records
        .iter()
        .position(|r| !of.is_of(r))
        .unwrap_or(records.len())
}

// The arcs of a readable file, which follow its crew record. (`Readable` is a clause here and in the public functions
// that call this, which have bytes alone: a type would ask more.)
pub fn arcs_of(s: &[u8]) -> &[Record]
    requires { Readable s.now }
    ensures value { RecordsOf (record_at s.now (activity_count s.now + 1)) result.now }
    ensures number { length result.now ≡ record_count s.now - (activity_count s.now + 1) }
{
    let records = records_of(s);
    let m = leading_records(records, RecordType::Activity);
    let (_, arcs) = records.split_at(m + 1);
    arcs
}

// The rest of the file from its crew record on: the arc reader. The plan has the m activities before it, and no arcs.
fn read_rest(plan: &mut Plan, m: usize, rest: &[Record]) -> Result<(), Cause>
    requires { (m ≤ elements) × (m + length rest.now ≤ 2048)
        × (plan.old.job ≡ replicate (cells elements) 0) × (plan.old.extra ≡ replicate (cells elements) 0) }
    ensures { (t : List ℕ) → RecordsOf t rest.now →
        given result plan.new ≡ outcome (rest_of m plan.old.duration plan.old.demand (length rest.now) t) }
{
    let Some((crew, arcs)) = rest.split_first() else {
        return Err(Cause::RecordType(m));
    };
    crew_cause(&plan.demand, crew, m)?;
    let j = leading_records(arcs, RecordType::JobArc);
    let (jobs, extras) = arcs.split_at(j);
    read_arcs(m, jobs, RecordType::JobArc, m + 1, &mut plan.job)?;
    read_arcs(m, extras, RecordType::ExtraArc, m + 1 + j, &mut plan.extra)?;
    plan.count = m;
    plan.kinds = usize::from(crew[1]);
    let available = eight(crew);
    plan.available = available;
    Ok(())
}

// A file, by its records.
pub fn read_file(records: &[Record]) -> Result<Plan, Cause>
    requires { length records.now ≤ 2048 }
    ensures { (s : List ℕ) → RecordsOf s records.now → result ≡ outcome (file_of (length records.now) s) }
{
    let m = leading_records(records, RecordType::Activity);
    let (activities, rest) = records.split_at(m);
    activities_cause(activities)?;
    let mut plan = Plan::empty();
    store_durations(activities, &mut plan.duration);
    store_demands(activities, &mut plan.demand);
    read_rest(&mut plan, m, rest)?;
    Ok(plan)
}

pub fn is_length(n: usize) -> bool
    ensures { result ≡ is_length n }
{
    0 < n && n <= 49152 && n % 24 == 0
}
