// The smallest functions on words and numbers: each is one operation of the machine, with its meaning.
#![tactic(auto)]

ghost use Rattle.std.specs.Prelude.{◌≡◌, ◌^◌, ◌<◌};
ghost use Rattle.words.specs.Bits.{word_bits, bit, with_bit, minus, rest};
ghost use Rattle.words.specs.Members.{count, first};

// A word of the machine; it has `word_bits` bits.
pub type Word = u64;

// Whether i is a member of the word: whether its bit is 1.
#[tactic(auto, unfolding(crate::specs::Bits::bit, crate::specs::Bits::digit))]
pub fn has(w: Word, i: usize) -> bool
    requires { i < word_bits }
    ensures { result ≡ bit w i }
{
    (w >> i) % 2 == 1
}

// The word with the member i.
#[tactic(auto, using(crate::proofs::Bits::shl_one))]
pub fn with_bit(w: Word, i: usize) -> Word
    requires { i < word_bits }
    ensures { result ≡ with_bit w i }
{
    w | (1 << i)
}

// The word without the member i.
#[tactic(auto, using(crate::proofs::Bits::shl_one))]
pub fn without_bit(w: Word, i: usize) -> Word
    requires { i < word_bits }
    ensures { result ≡ minus w (2 ^ i) }
{
    without(w, 1 << i)
}

// The word a without the members of b.
pub fn without(a: Word, b: Word) -> Word
    ensures { result ≡ minus a b }
{
    a - (a & b)
}

// How many members the word has.
#[tactic(auto, using(crate::proofs::Sizes::ones_count))]
pub fn size(w: Word) -> usize
    ensures { result ≡ count word_bits (bit w) }
{
    w.count_ones() as usize
}

// The lowest member of the word, and the number of bits where there is none. (A number, as `first` of the specs and the
// machine have it; `Set::lowest` of order makes the `Option`.)
#[tactic(auto, using(crate::proofs::Members::trailing_first))]
pub fn lowest(w: Word) -> usize
    ensures { result ≡ first word_bits (bit w) }
{
    w.trailing_zeros() as usize
}

// The word without its lowest member. A loop over the members of a word ends where the word is 0.
pub fn without_lowest(w: Word) -> Word
    requires { 0 < w }
    ensures { result ≡ rest w }
{
    w & (w - 1)
}
