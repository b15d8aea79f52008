// Arc records, types 3 and 4.
ghost use Rattle.std.specs.Prelude.{◌≡◌, List, ℕ, not, cond, ◌+◌, ◌-◌, ◌≤◌, length, replicate};
ghost use Rattle.words.specs.model.Loops.{upto};
ghost use Rattle.order.specs.Stored.{elements, cells};
ghost use Rattle.records.specs.Bytes.{byte};
ghost use Rattle.plan.specs.declared.Cause.TheVariants.{RepeatedArc};
ghost use Rattle.plan.specs.Records.{is_end, arc_fields, arc_spare};
ghost use Rattle.plan.specs.model.ArcRows.{ArcRecord, with_arc, has_arc, arcs_after};
ghost use Rattle.plan.specs.Causes.{rule, arc_cause, is_readable};
ghost use Rattle.plan.specs.model.Lists.{RecordsOf, type_number};
ghost use Rattle.plan.specs.model.Phases.{put_arc, arcs_cause, arcs_fine};

use crate::checks::check;
use crate::field::all_zero;
use crate::{Cause, Record, RecordType};
use order::Rows;

fn is_end(m: usize, i: u8) -> bool
    ensures { result ≡ is_end m i }
{
    0 < i && usize::from(i) <= m
}

// Whether an arc record's fields keep their rules, in a plan of m activities.
fn arc_fields(m: usize, r: &Record) -> bool
    ensures { result ≡ arc_fields m r.now }
{
    is_end(m, r[1]) && is_end(m, r[2]) && r[1] != r[2]
}

// Whether an arc record's spare bytes are zero. (Bytes 4-5 are its wait. As `arc_spare` of the specs: one function for
// this and the crew's, of four numbers, would say less.)
fn arc_spare(r: &Record) -> bool
    ensures { result ≡ arc_spare r.now }
{
    all_zero(&r[3..4]) && all_zero(&r[6..])
}

fn arc_cause(m: usize, r: &Record, of: RecordType, place: usize) -> Result<(), Cause>
    ensures { result ≡ arc_cause (type_number of) place m r.now }
{
    check(of.is_of(r), Cause::RecordType(place))?;
    check(arc_fields(m, r), Cause::Field(place))?;
    check(arc_spare(r), Cause::Spare(place))
}

// The elements from which and to which the arc of a record leads. (`ArcRecord` is asked of a record here and by those
// that go by it: models as `with_arc` and `has_arc` are of a record's bytes, which a struct of two elements loses.)
pub fn ends(r: &Record) -> (usize, usize)
    requires { ArcRecord r.now }
    ensures from { result.0 ≡ byte r.now 1 - 1 }
    ensures to { result.1 ≡ byte r.now 2 - 1 }
{
    (usize::from(r[1]) - 1, usize::from(r[2]) - 1)
}

// Whether the rows have the arc of a record.
pub fn has_arc(r: &Record, rows: &Rows) -> bool
    requires { ArcRecord r.now }
    ensures { result ≡ has_arc rows.now r.now }
{
    let (i, j) = ends(r);
    order::row(rows, i).has(j)
}

// The arc of a record.
pub fn store_arc(r: &Record, rows: &mut Rows)
    requires { ArcRecord r.now }
    ensures { rows.new ≡ with_arc r.now rows.old }
{
    let (i, j) = ends(r);
    let arcs = order::row(rows, i).with(j);
    order::put_row(rows, i, arcs);
}

// Reads a record that has to be an arc of a type, in the state of the rows so far: it is looked at, by itself and then
// for its pair among theirs, and its arc is stored.
fn read_arc(
    m: usize,
    r: &Record,
    of: RecordType,
    place: usize,
    rows: &mut Rows,
) -> Result<(), Cause>
    requires { m ≤ elements }
    ensures value { result ≡ rule (arc_cause (type_number of) place m r.now)
        (not (has_arc rows.old r.now)) (RepeatedArc place) }
    ensures rows_after { rows.new
        ≡ cond (is_readable result) (arcs_after (type_number of) r.now rows.old) rows.old }
{
    arc_cause(m, r, of, place)?;
    check(!has_arc(r, rows), Cause::RepeatedArc(place))?;
    store_arc(r, rows);
    Ok(())
}

// Reads records that have to be arcs of a type; the first of them is at a place of the file. The rows are empty before
// them.
pub fn read_arcs(
    m: usize,
    arcs: &[Record],
    of: RecordType,
    place: usize,
    rows: &mut Rows,
) -> Result<(), Cause>
    requires { (place + length arcs.now ≤ 2048) × (m ≤ elements)
        × (rows.old ≡ replicate (cells elements) 0) }
    ensures value { (t : List ℕ) → RecordsOf t arcs.now →
        result ≡ arcs_cause (type_number of) place m t (length arcs.now) }
    ensures rows_after { (t : List ℕ) → RecordsOf t arcs.now → rows.new
        ≡ upto (put_arc (type_number of) t) (arcs_fine (type_number of) place m t (length arcs.now)) rows.old }
{
    for (i, r) in arcs.iter().enumerate() {
        read_arc(m, r, of, place + i, rows)?;
    }
    Ok(())
}
