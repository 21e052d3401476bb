// Writes mul_div's answer for each case of cases.py, one to a line: quotient and remainder, or "none" for None; then
// over_trillion's.
#![tactic(auto)]

mod cases;

use cases::{DIVISIONS, TERMS};
use definitions::Division;
use std::io;

// No Display: Division is of another crate, and this is the one place that prints it.
fn line(rt: HostRuntime, d: Division) -> io::Result<()> {
    println!(rt; "{} {}", d.quotient, d.remainder)
}

fn quotients(rt: HostRuntime) -> io::Result<()> {
    for (a, b, c) in DIVISIONS {
        match muldiv::mul_div(a, b, c) {
            Some(d) => line(rt, d)?,
            None => println!(rt; "none")?,
        }
    }
    Ok(())
}

fn terms(rt: HostRuntime) -> io::Result<()> {
    for (w, u) in TERMS {
        if w <= 1_000_000_000_000_000 && u <= 1_000_000_000_000 {
            line(rt, muldiv::over_trillion(w, u))?;
        }
    }
    Ok(())
}

fn main(rt: HostRuntime) -> io::Result<()> {
    quotients(rt)?;
    terms(rt)
}
