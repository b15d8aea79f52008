// What a page is written from: the records of a flow, and the starts of the nodes behind node 0.
ghost use Rattle.std.specs.Prelude.{◌≡◌, ℕ, ◌*◌, ◌^◌, ◌≤◌, ◌<◌, length, slice_index};
ghost use Rattle.records.specs.Bytes.{AreBytes};
ghost use Rattle.records.specs.Records.{from_of, to_of, units_of};
ghost use Rattle.crew_sheet.specs.Sheet.{most_lines, start_of};

use crate::order::node_start;

// The first n of the records. (They may be fewer than the lent bytes hold. Bytes and n: `received_by`, `from_of` and
// the others of the specs go by a record's number in the bytes. That these are bytes, and the starts numbers of 32
// bits, is said here since a proof that has them behind a reference is not told their types.)
#[derive(Clone, Copy)]
pub struct Handovers<'a> {
    pub records: &'a [u8],
    pub n: usize,
    pub starts: &'a [u32],
    pub ghost few: { n ≤ most_lines },
    pub ghost held: { 24 * n ≤ length records.now },
    pub ghost are_bytes: { AreBytes records.now },
    pub ghost are_words: { (i : ℕ) → slice_index starts.now i < 2 ^ 32 },
}

impl Handovers<'_> {
    // The node that record i hands over from.
    pub fn sender(&self, i: usize) -> u8
        requires { i < self.now.n }
        ensures { result ≡ from_of self.now.records.now i }
    {
        self.records[24 * i + 2]
    }

    // The node that it hands over to.
    pub fn receiver(&self, i: usize) -> u8
        requires { i < self.now.n }
        ensures { result ≡ to_of self.now.records.now i }
    {
        self.records[24 * i + 3]
    }

    // Its units. (`field_halves` is cited for the wrong version that reads two halves: it is refused for its bytes.)
    #[tactic(auto, using(crate::proofs::Filling::field_halves))]
    pub fn units(&self, i: usize) -> u32
        requires { i < self.now.n }
        ensures { result ≡ units_of self.now.records.now i }
    {
        records::field::<4>(self.records, 24 * i + 4)
    }

    // The start of its receiver.
    pub fn start_of(&self, i: usize) -> u32
        requires { i < self.now.n }
        ensures { result ≡ start_of self.now.records.now self.now.starts.now i }
    {
        node_start(self.starts, usize::from(self.receiver(i)))
    }
}
