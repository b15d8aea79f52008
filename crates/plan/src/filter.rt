// Extra arcs for another file: those with wait 0, as rows, and a file without some of its extra arcs.
ghost use Rattle.std.specs.Prelude.{◌≡◌, List, ℕ, not, cond, ◌||◌, ◌≤◌, eqb, length, replicate};
ghost use Rattle.words.specs.Members.{count};
ghost use Rattle.words.specs.model.Loops.{upto};
ghost use Rattle.order.specs.Stored.{elements, cells};
ghost use Rattle.records.specs.Bytes.{byte};
ghost use Rattle.records.specs.Records.{starting_with};
ghost use Rattle.plan.specs.Records.{record_count};
ghost use Rattle.plan.specs.Meaning.{Readable};
ghost use Rattle.plan.specs.Filtered.{filtered};
ghost use Rattle.plan.specs.model.ArcRows.{ArcRecord, with_arc, has_arc, stays_by, is_free, put_free, free_rows};
ghost use Rattle.plan.specs.model.Waits.{AreArcs};
ghost use Rattle.plan.specs.model.Lists.{RecordsOf};

use crate::arc::{has_arc, store_arc};
use crate::file::{arcs_of, records_of};
use crate::{Record, RecordType};
use order::Rows;
use records::field;

// The arc of a record, where it is an extra arc with wait 0.
fn store_if_free(r: &Record, rows: &mut Rows)
    requires { ArcRecord r.now }
    ensures { rows.new
        ≡ cond (is_free r.now) (with_arc r.now rows.old) rows.old }
{
    if !RecordType::ExtraArc.is_of(r) {
        return;
    }
    if field::<2>(r, 4) != 0 {
        return;
    }
    store_arc(r, rows);
}

// Those of some arcs.
fn store_each_free(arcs: &[Record], rows: &mut Rows)
    requires { AreArcs arcs.now }
    ensures { (t : List ℕ) → RecordsOf t arcs.now → rows.new ≡ upto (put_free t) (length arcs.now) rows.old }
{
    for r in arcs {
        store_if_free(r, rows);
    }
}

// The extra arcs with wait 0 of a file, into rows without arcs.
pub fn store_free(s: &[u8], rows: &mut Rows)
    requires { Readable s.now × (rows.old ≡ replicate (cells elements) 0) }
    ensures { rows.new ≡ free_rows s.now }
{
    store_each_free(arcs_of(s), rows);
}

// Whether a record stays where the extra arcs of the file become those of the rows.
fn stays(r: &Record, extra: &Rows) -> bool
    requires { byte r.now 0 ≡ 4 → ArcRecord r.now }
    ensures { result ≡ (not (eqb (byte r.now 0) 4) || has_arc extra.now r.now) }
{
    !RecordType::ExtraArc.is_of(r) || has_arc(r, extra)
}

// Writes a record to the start of the lent bytes.
fn write_record(r: &Record, out: &mut [u8])
    requires { 24 ≤ length out.old }
    ensures { out.new ≡ starting_with r.now out.old }
{
    out[..24].copy_from_slice(r);
}

// Writes the records of a file that stay, in their order, to the front of the lent bytes; gives their number.
pub fn write_staying(s: &[u8], extra: &Rows, out: &mut [u8]) -> usize
    requires { Readable s.now × (length s.now ≤ length out.old) }
    ensures value { result ≡ count (record_count s.now) (stays_by extra.now s.now) }
    ensures out_after { out.new ≡ starting_with
        (filtered (stays_by extra.now s.now) s.now) out.old }
{
    let mut n: usize = 0;
    for r in records_of(s) {
        if stays(r, extra) {
            write_record(r, &mut out[24 * n..]);
            n += 1;
        }
    }
    n
}
