// The characters of a line, written to lent bytes.
ghost use Rattle.std.specs.Prelude.{◌≡◌, ◌+◌, ◌≤◌, length, replicate};
ghost use Rattle.lines.specs.Text.{text, more};
ghost use Rattle.crew_sheet.specs.Sheet.{line_bytes, column, cell, row_line, blank_line, head_line};
ghost use Rattle.crew_sheet.specs.model.Figures.{figure_of};

use lines::Draft;

// The character at a place of a right-aligned number, of what is left of the number there and how
// many digits are to the right.
fn figure(rest: u64, tail: usize) -> u8
    ensures { result ≡ figure_of rest tail }
{
    if rest == 0 {
        if tail == 0 {
            return b'0';
        }
        return b' ';
    }
    b'0' + (rest % 10) as u8
}

// Writes a number, right-aligned in w columns. (By places from the last: see `put_decimal` of lines.)
fn put_column(draft: &mut Draft, w: usize, x: u64)
    requires { draft.old.at + w ≤ length draft.old.out.now }
    ensures same_reference { draft.new.out.ghost_name ≡ draft.old.out.ghost_name }
    ensures written { text draft.new.at draft.new.out.now
        ≡ more (text draft.old.at draft.old.out.now) (column w x) }
{
    let end = draft.at + w;
    let mut rest = x;
    for i in (draft.at..end).rev() {
        draft.out[i] = figure(rest, end - 1 - i);
        rest /= 10;
    }
    draft.at = end;
}

// Writes n blanks.
fn put_blanks(draft: &mut Draft, n: usize)
    requires { draft.old.at + n ≤ length draft.old.out.now }
    ensures same_reference { draft.new.out.ghost_name ≡ draft.old.out.ghost_name }
    ensures written { text draft.new.at draft.new.out.now
        ≡ more (text draft.old.at draft.old.out.now) (replicate n 32) }
{
    let end = draft.at + n;
    draft.out[draft.at..end].fill(b' ');
    draft.at = end;
}

// Writes a number, right-aligned in w columns, and blanks behind it.
fn put_cell(draft: &mut Draft, w: usize, gap: usize, x: u64)
    requires { draft.old.at + (w + gap) ≤ length draft.old.out.now }
    ensures same_reference { draft.new.out.ghost_name ≡ draft.old.out.ghost_name }
    ensures written { text draft.new.at draft.new.out.now
        ≡ more (text draft.old.at draft.old.out.now) (cell w gap x) }
{
    put_column(draft, w, x);
    put_blanks(draft, gap);
}

// Writes the line of a record.
pub fn put_row(row: &mut Draft, from: u64, to: u64, units: u64, start: u64)
    requires { row.old.at + line_bytes ≤ length row.old.out.now }
    ensures same_reference { row.new.out.ghost_name ≡ row.old.out.ghost_name }
    ensures written { text row.new.at row.new.out.now
        ≡ more (text row.old.at row.old.out.now) (row_line from to units start) }
{
    put_cell(row, 3, 1, from);
    put_cell(row, 3, 1, to);
    put_cell(row, 8, 1, units);
    put_cell(row, 10, 13, start);
    row.put_bytes(b"\n");
}

// Writes a blank line.
pub fn put_blank(blank: &mut Draft)
    requires { blank.old.at + line_bytes ≤ length blank.old.out.now }
    ensures same_reference { blank.new.out.ghost_name ≡ blank.old.out.ghost_name }
    ensures written { text blank.new.at blank.new.out.now
        ≡ more (text blank.old.at blank.old.out.now) blank_line }
{
    put_blanks(blank, 40);
    blank.put_bytes(b"\n");
}

// Writes the head line of a page. Gives the number of bytes then. (`Page` is no `Draft`: its methods take it by value,
// and `headed`, `onto` of the specs are equalities of it.)
pub fn put_head(out: &mut [u8], at: usize, kind: u64, page: usize) -> usize
    requires { at + line_bytes ≤ length out.old }
    ensures { text result out.new ≡ more (text at out.old) (head_line kind page) }
{
    let mut head = Draft { out, at };
    head.put_bytes(b"KIND ");
    put_cell(&mut head, 1, 1, kind);
    put_cell(&mut head, 3, 30, page as u64);
    head.put_bytes(b"\n");
    head.at
}
