// The waits of arcs, bytes 4-5 of their records. A plan does not hold them: whoever goes by them has them read into a
// table, where that of the arc from i to j stands at ELEMENTS * j + i.
ghost use Rattle.std.specs.Prelude.{◌≡◌, List, ℕ, ◌*◌, length, replicate};
ghost use Rattle.words.specs.model.Loops.{upto};
ghost use Rattle.order.specs.Stored.{elements};
ghost use Rattle.plan.specs.Meaning.{Readable};
ghost use Rattle.plan.specs.model.ArcRows.{ArcRecord};
ghost use Rattle.plan.specs.model.Waits.{wait_table, with_wait, put_wait, AreArcs};
ghost use Rattle.plan.specs.model.Lists.{RecordsOf};

use crate::Record;
use crate::arc::ends;
use crate::file::arcs_of;
use order::ELEMENTS;
use records::field;

// The wait of an arc record, where none that is longer stands: both bind where a job arc and an extra arc share a pair.
fn raise_wait(r: &Record, waits: &mut [u32; ELEMENTS * ELEMENTS])
    requires { ArcRecord r.now }
    ensures { waits.new ≡ with_wait r.now waits.old }
{
    let (i, j) = ends(r);
    let x = ELEMENTS * j + i;
    waits[x] = waits[x].max(field::<2>(r, 4));
}

// The waits of some arcs.
fn raise_waits(arcs: &[Record], waits: &mut [u32; ELEMENTS * ELEMENTS])
    requires { AreArcs arcs.now }
    ensures { (t : List ℕ) → RecordsOf t arcs.now → waits.new ≡ upto (put_wait t) (length arcs.now) waits.old }
{
    for r in arcs {
        raise_wait(r, waits);
    }
}

// The waits of a file's arcs, into a table of zeros.
pub fn store_waits(s: &[u8], waits: &mut [u32; ELEMENTS * ELEMENTS])
    requires { Readable s.now × (waits.old ≡ replicate (elements * elements) 0) }
    ensures { waits.new ≡ wait_table s.now }
{
    raise_waits(arcs_of(s), waits);
}
