// Flow and overload records, of 24 bytes, and their writing to lent bytes.
#![tactic(auto)]

ghost use Rattle.std.specs.Prelude.{◌≡◌, ◌++◌, ◌+◌, ◌*◌, ◌≤◌, length, take, drop};
ghost use Rattle.records.specs.Records.{flow_record, overload_record, starting_with};

mod read;

pub use read::field;

// Byte 0 of a record: its type.
const FLOW: u8 = 33;

const OVERLOAD: u8 = 32;

// Writes a flow record to the start of the lent bytes. (The mark is a byte: `flow_record` has one, and callers may pass
// any, where a `bool` would ask more of them.)
pub fn write_flow(out: &mut [u8], kind: u8, from: u8, to: u8, units: u32, mark: u8)
    requires { 24 ≤ length out.old }
    ensures { out.new ≡ starting_with (flow_record kind from to units mark) out.old }
{
    out[..24].fill(0);
    out[..4].copy_from_slice(&[FLOW, kind, from, to]);
    out[4..8].copy_from_slice(&units.to_le_bytes());
    out[8] = mark;
}

// Writes an overload record to the start of the lent bytes.
pub fn write_overload(out: &mut [u8], kind: u8, size: u8, need: u32, members: u64)
    requires { 24 ≤ length out.old }
    ensures { out.new ≡ starting_with (overload_record kind size need members) out.old }
{
    out[..24].fill(0);
    out[..4].copy_from_slice(&[OVERLOAD, kind, size, 0]);
    out[4..8].copy_from_slice(&need.to_le_bytes());
    out[8..16].copy_from_slice(&members.to_le_bytes());
}

// Writes flow record number n of a run to the start of what the n records before it leave of the lent bytes. (A pair of
// nodes is two bytes, so there are at most 65,536. n stands beside the bytes, since the contract speaks of both.)
pub fn append_flow(out: &mut [u8], n: usize, kind: u8, from: u8, to: u8, units: u32, mark: u8)
    requires { (n ≤ 65536) × (24 * n + 24 ≤ length out.old) }
    ensures { out.new ≡ take (24 * n) out.old ++ flow_record kind from to units mark ++ drop (24 * n + 24) out.old }
{
    write_flow(&mut out[24 * n..], kind, from, to, units, mark);
}
