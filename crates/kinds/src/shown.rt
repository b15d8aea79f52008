// An overload, as a record.
ghost use Rattle.std.specs.Prelude.{◌≡◌, ◌≤◌, length};
ghost use Rattle.records.specs.Records.{starting_with};
ghost use Rattle.kinds.specs.Needs.{given_count, given_bytes};

use crate::Overload;

// The most kinds that a file has.
const KINDS: usize = 8;

// Writes the record of an overload to the front of the lent bytes. Gives the number of records: 0 where there is no
// overload, or of no kind that a file has.
pub fn put_overload(out: &mut [u8], over: Option<Overload>) -> usize
    requires { 24 ≤ length out.old }
    ensures { (result ≡ given_count over) × (out.new ≡ starting_with (given_bytes over) out.old) }
{
    let Some(shown) = over else {
        return 0;
    };
    let kind = shown.kind;
    if kind >= KINDS {
        return 0;
    }
    let set = shown.set;
    records::write_overload(
        out,
        (kind + 1) as u8,
        set.size() as u8,
        shown.need,
        set.first_word(),
    );
    1
}
