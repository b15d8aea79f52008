// The fields of a record, and its spare bytes.
ghost use Rattle.std.specs.Prelude.{◌≡◌, ◌≤◌};
ghost use Rattle.words.specs.Tables.{table};
ghost use Rattle.records.specs.Bytes.{field, zeros};
ghost use Rattle.plan.specs.Records.{demand_in};

use crate::Record;
use records::field;

// The eight fields of two bytes from byte 4 on: demands, or availabilities.
pub fn eight(r: &Record) -> [u32; 8]
    ensures { result ≡ table 8 (demand_in r.now) }
{
    let mut fields = [0u32; 8];
    for (k, x) in fields.iter_mut().enumerate() {
        *x = field::<2>(r, 4 + 2 * k);
    }
    fields
}

// Whether each byte is zero.
pub fn all_zero(bytes: &[u8]) -> bool
    ensures { result ≡ zeros bytes.now }
{
    bytes.iter().all(|b| *b == 0)
}
