// The fields of a record, read.
ghost use Rattle.std.specs.Prelude.{◌≡◌, ◌+◌, ◌^◌, ◌≤◌, ◌<◌, length};
ghost use Rattle.records.specs.Bytes.{field};

// The field of N bytes from byte `at` on, lowest byte first. (Read from the last byte on, by their places: that is one
// load where N is 2 or 4, and a copy to four bytes, for `from_le_bytes`, takes four times as long.)
pub fn field<const N: usize>(bytes: &[u8], at: usize) -> u32
    requires { (N ≤ 4) × (at + N ≤ length bytes.now) }
    ensures value { result ≡ field bytes.now at N }
    ensures upper_bound { result < 256 ^ N }
{
    let mut x = 0;
    for i in (at..at + N).rev() {
        x = 256 * x + u32::from(bytes[i]);
    }
    x
}
