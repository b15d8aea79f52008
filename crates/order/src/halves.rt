// The places of a list that are not 0, as a word. Its two halves are found in one loop, each in as many bits as an
// entry of the list has: so the compiler makes vector code of it, which took a fifth of the time in a copy in C.
ghost use Rattle.std.specs.Prelude.{◌≡◌, ◌%◌, ◌^◌, ◌<◌, ◌≤◌, if◌then◌else◌, nat_eq};
ghost use Rattle.words.specs.Bits.{word_bits};
ghost use Rattle.order.specs.Stored.{elements};
ghost use Rattle.order.specs.model.Places.{positive};

use crate::ELEMENTS;

// How many bits half a word has.
const HALF: usize = 32;

// The bit i of half a word, where x is not 0.
fn half_bit(x: u32, i: usize) -> u32
    requires { i < 32 }
    ensures { result ≡ (if nat_eq x 0 then 0 else 2 ^ i) }
{
    if x == 0 { 0 } else { 1 << i }
}

// The m lowest bits of a word.
fn lowest_bits(w: words::Word, m: usize) -> words::Word
    requires { m ≤ word_bits }
    ensures { result ≡ w % 2 ^ m }
{
    if m == 64 {
        return w;
    }
    w & ((1 << m) - 1)
}

// Those of the m first places at which the list is not 0.
pub fn places_word(a: &[u32; ELEMENTS], m: usize) -> words::Word
    requires { m ≤ elements }
    ensures { result ≡ positive m a.now }
{
    let mut low: u32 = 0;
    let mut high: u32 = 0;
    let (first, second) = a.split_at(HALF);
    for (i, x) in first.iter().enumerate() {
        low |= half_bit(*x, i);
        // by the index: of a `zip` of the halves the proof did not close
        high |= half_bit(second[i], i);
    }
    let word = (u64::from(high) << HALF) | u64::from(low);
    lowest_bits(word, m)
}
