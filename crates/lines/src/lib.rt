// Lines of text, written to lent bytes: a word, and numbers after it.
#![tactic(auto)]

ghost use Rattle.std.specs.Prelude.{◌≡◌, ◌+◌, ◌*◌, ◌≤◌, length};
ghost use Rattle.lines.specs.Text.{places, decimal, spaced, line_of, text, more};

// How many decimal digits a number takes; 0 takes one.
fn digits(x: u64) -> usize
    ensures { result ≡ places x }
{
    x.max(1).ilog10() as usize + 1
}

// Lent bytes, and how many of them are written: the text so far.
#[derive(Drop)]
pub struct Draft<'a> {
    pub out: &'a mut [u8],
    pub at: usize,
}

impl Draft<'_> {
    // Writes bytes behind those that are written.
    pub fn put_bytes(&mut self, bytes: &[u8])
        requires { self.old.at + length bytes.now ≤ length self.old.out.now }
        ensures same_reference { self.new.out.ghost_name ≡ self.old.out.ghost_name }
        ensures written { text self.new.at self.new.out.now ≡ more (text self.old.at self.old.out.now) bytes.now }
    {
        let end = self.at + bytes.len();
        self.out[self.at..end].copy_from_slice(bytes);
        self.at = end;
    }

    // Writes the decimal digits of a number. (std's `write!` would give an error besides, which cannot be; of
    // `iter_mut().rev()` no proof knows what it wrote.)
    fn put_decimal(&mut self, x: u64)
        requires { self.old.at + 20 ≤ length self.old.out.now }
        ensures same_reference { self.new.out.ghost_name ≡ self.old.out.ghost_name }
        ensures written { text self.new.at self.new.out.now ≡ more (text self.old.at self.old.out.now) (decimal x) }
    {
        let end = self.at + digits(x);
        let mut rest = x;
        for i in (self.at..end).rev() {
            self.out[i] = b'0' + (rest % 10) as u8;
            rest /= 10;
        }
        self.at = end;
    }

    // Writes numbers, a space before each.
    fn put_numbers(&mut self, numbers: &[u64])
        requires { self.old.at + 21 * length numbers.now ≤ length self.old.out.now }
        ensures same_reference { self.new.out.ghost_name ≡ self.old.out.ghost_name }
        ensures written { text self.new.at self.new.out.now
            ≡ more (text self.old.at self.old.out.now) (spaced numbers.now) }
    {
        for x in numbers {
            self.out[self.at] = b' ';
            self.at += 1;
            self.put_decimal(*x);
        }
    }

    // Writes a line: a word, numbers, and the line's end.
    pub fn put_line(&mut self, word: &[u8], numbers: &[u64])
        requires { self.old.at + length word.now + 21 * length numbers.now + 1 ≤ length self.old.out.now }
        ensures same_reference { self.new.out.ghost_name ≡ self.old.out.ghost_name }
        ensures written { text self.new.at self.new.out.now
            ≡ more (text self.old.at self.old.out.now) (line_of word.now numbers.now) }
    {
        self.put_bytes(word);
        self.put_numbers(numbers);
        self.put_bytes(b"\n");
    }
}
