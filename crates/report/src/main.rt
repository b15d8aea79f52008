// The report: reads a plan on standard input and prints its report on standard output (document 01, "Plans A to F").
// The whole text is made by one proved function, `report_text` of report_lines.
#![tactic(auto)]

ghost use Rattle.std.specs.Prelude.{◌≡◌, length};
ghost use Rattle.std.specs.Io.{ReadsAtMost};
ghost use Rattle.report_lines.specs.Report.{text_room};

use report_lines::REPORT_BYTES;
use std::io;
use std::io::Read;

// A file of more than 49,152 bytes is refused for its length; so it is enough to read one byte more than that.
const INPUT_BYTES: usize = 49_152 + 1;

// Zeros, for the whole text: as many as `report_text` asks for. (A function, since its contract tells the length.)
fn text_buffer() -> [u8; REPORT_BYTES]
    ensures { text_room ≡ length result }
{
    [0; REPORT_BYTES]
}

// Reads until buf is full or the input ends, and gives how many bytes it put at the start of buf. (`read_exact` refuses
// an input that is shorter, and `read_to_end` wants a heap.)
fn read_full<R: Read>(input: &mut R, buf: &mut [u8]) -> io::Result<usize>
    ensures { ReadsAtMost result buf.new }
{
    let mut done = 0;
    while done < buf.len() {
        let n = input.read(&mut buf[done..])?;
        if n == 0 {
            break;
        }
        done += n;
    }
    Ok(done)
}

// That output is lost is said on standard error, and is the error that main ends with.
fn print_text(rt: &(impl Print + Eprint), text: &[u8]) -> io::Result<()> {
    match rt.write_all(text) {
        Ok(()) => Ok(()),
        Err(error) => {
            eprintln!(rt; "report: the output cannot be written")?;
            Err(error)
        }
    }
}

fn main(rt: HostRuntime) -> io::Result<()> {
    let mut input = [0; INPUT_BYTES];
    let n = read_full(&mut rt.reader(), &mut input)?;
    let mut out = text_buffer();
    let end = report_lines::report_text(&mut out, &input[..n]);
    print_text(&rt, &out[..end])
}
