// Writes the sheets that cases.py makes, one after the other.
#![tactic(auto)]

ghost use Rattle.sheet.specs.Shape.{Shape};

use definitions::Run;
use sheet::Solved;
use std::io;

fn show(rt: HostRuntime, outcome: Result<Solved, u8>) -> io::Result<()> {
    let mut out = [b'#'; sheet::ROOM];
    let n = sheet::write_sheet(outcome, &mut out);
    rt.write_all(&out[..n])
}

// The sheet of a run up to a level; no sheet shows the row means.
fn show_run(
    rt: HostRuntime,
    level: u64,
    states: usize,
    highest: usize,
    cells: &[u64],
) -> io::Result<()>
    requires { Shape states highest cells.now }
{
    let run = Run { level, means: 0 };
    show(
        rt,
        Ok(Solved {
            run,
            states,
            highest,
            cells,
        }),
    )
}

// 520 figures, each with other digits, up to just below 1.
fn figures() -> [u64; 520] {
    let mut cells = [0; 520];
    for (k, cell) in cells.iter_mut().enumerate() {
        *cell = k as u64 * 1_923_076_921;
    }
    cells
}

fn main(rt: HostRuntime) -> io::Result<()> {
    let b = [
        718_750_000_000,
        612_500_000_000,
        281_250_000_000,
        175_000_000_000,
        390_625_000_000,
        284_375_000_000,
    ];
    show_run(rt, 3, 2, 2, &b[..4])?;
    show_run(rt, 3, 2, 2, &b)?;
    show_run(rt, 1, 1, 1, &[1_000_000_000_000])?;
    show(rt, Err(3))?;
    show(rt, Err(12))?;
    show(rt, Err(255))?;
    let all = figures();
    show_run(rt, 1024, 64, 8, &all)?;
    show_run(rt, 99, 3, 3, &all[..9])?;
    show_run(rt, 100, 0, 8, &all[..8])?;
    show_run(rt, 0, 64, 0, &all[..0])?;
    show_run(rt, 18446744073709551615, 1, 8, &all[..8])
}
