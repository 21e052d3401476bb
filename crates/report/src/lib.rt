// From the bytes on standard input to the bytes of the printed sheet.
#![tactic(auto)]

ghost use Rattle.std.specs.Prelude.{List, ℕ, take};
ghost use Rattle.definitions.specs.Sheet.{SheetDenotes, sheet, printed_sheet};
ghost use Rattle.writing.specs.Printed.{Printed};
ghost use Rattle.report.specs.Held.{Holds};

use reader::{Head, ModelFile};
use sheet::Solved;

// The bytes of standard input that are judged.
pub const LIMIT: usize = 16654;

// The bytes of a buffer that has room for every sheet.
pub const ROOM: usize = sheet::ROOM;

// Writes the sheet of a file at the buffer's start and returns its length. Later bytes stay.
fn report_file(file: &[u8], out: &mut [u8; ROOM]) -> usize
    ensures { Printed (sheet file.now) out.old out.new result }
{
    let mut cells = [0; 520];
    match moments::calculate(file, &mut cells) {
        Err(refusal) => sheet::write_sheet(Err(refusal.row()), out),
        Ok(run) => {
            let model = ModelFile {
                head: Head { bytes: file },
            };
            let solved = Solved {
                run,
                states: model.head.state_count(),
                highest: model.head.highest_moment(),
                cells: &cells[..model.block_size()],
            };
            sheet::write_sheet(Ok(solved), out)
        }
    }
}

// Writes the sheet of the first `count` bytes of `buffer` at the start of `out` and returns its
// length. Later bytes stay. A count above the buffer's length means all of it. Where those bytes
// are the standard input, as far as the buffer has room for it, that is the sheet of the program.
// Each figure on it, read as a decimal, is the number in its cell. The part of the buffer is taken
// here and not by the caller, so that the contract says which bytes are judged.
pub fn report(buffer: &[u8; LIMIT], count: usize, out: &mut [u8; ROOM]) -> usize
    ensures file { Printed (sheet (take count buffer.now)) out.old out.new result }
    ensures input { (input : List ℕ) → Holds buffer.now count input → Printed (printed_sheet input) out.old out.new result }
    ensures figures { SheetDenotes (take count buffer.now) }
{
    report_file(&buffer[..count.min(LIMIT)], out)
}
