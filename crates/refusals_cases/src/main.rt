// Judges the cases of the input and writes each as a line: what `judge` says of its file, and what
// `judge_series` says of it with its list of times. 0 stands for accepted, else the row's number.
//
// The input is made by cases.py: for each case the length of its file, the number of answer cells, of level
// cells and of times, 4 bytes each, and then the times, 4 bytes each, and the file's bytes.
#![tactic(auto)]

ghost use Rattle.std.specs.Prelude.{◌≡◌, ◌+◌, ◌≤◌, ◌<◌, length, IfSome};

use definitions::Refusal;
use reader::ModelFile;
use std::io;

const MOST_TIMES: usize = 16;

// The bytes of the longest input.
const LONGEST: usize = 524288;

// A file, what is lent with it, and its list of times: the first `count` of `times`, an array, since a Vec could fail too.
#[derive(Clone, Copy)]
struct Case<'a> {
    file: &'a [u8],
    cells: usize,
    levels: usize,
    times: [u32; MOST_TIMES],
    count: usize,
    ghost listed: { count ≤ 16 },
}

// The number in the first four bytes, and the bytes after them.
fn number(input: &[u8]) -> Option<(u32, &[u8])>
    ensures { IfSome result (λ r. length r.1.now < length input.now) }
{
    let (bytes, rest) = input.split_first_chunk::<4>()?;
    Some((u32::from_be_bytes(*bytes), rest))
}

// So many times, and the bytes after them.
fn times_of(input: &[u8], count: usize) -> Option<([u32; MOST_TIMES], &[u8])>
    requires { count ≤ 16 }
    ensures { IfSome result (λ r. length r.1.now ≤ length input.now) }
{
    let mut times = [0; MOST_TIMES];
    let mut rest = input;
    for time in &mut times[..count] {
        let (first, later) = number(rest)?;
        *time = first;
        rest = later;
    }
    Some((times, rest))
}

// The first case, and the bytes after it; None where no whole case is left.
fn first_case(input: &[u8]) -> Option<(Case<'_>, &[u8])>
    ensures { IfSome result (λ r. length r.1.now < length input.now) }
{
    let (size, rest) = number(input)?;
    let (cells, rest) = number(rest)?;
    let (levels, rest) = number(rest)?;
    let (count, rest) = number(rest)?;
    let count = count as usize;
    if count > MOST_TIMES {
        return None;
    }
    let (times, rest) = times_of(rest, count)?;
    let (file, rest) = rest.split_at_checked(size as usize)?;
    let case = Case {
        file,
        cells: cells as usize,
        levels: levels as usize,
        times,
        count,
    };
    Some((case, rest))
}

fn row(answer: Result<ModelFile, Refusal>) -> u8 {
    match answer {
        Ok(_) => 0,
        Err(refusal) => refusal.row(),
    }
}

fn judge(rt: HostRuntime, case: &Case) -> io::Result<()> {
    let times = &case.times[..case.count];
    let alone = row(refusals::judge(case.file, case.cells));
    let series = row(refusals::judge_series(case.file, times, case.levels, case.cells));
    println!(rt; "{alone} {series}")
}

fn judge_all(rt: HostRuntime, input: &[u8]) -> io::Result<()> {
    let mut rest = input;
    while let Some((case, later)) = first_case(rest) {
        judge(rt, &case)?;
        rest = later;
    }
    Ok(())
}

// A buffer for the input. It is made in a function of its own so that no proof of a caller spells its bytes out.
fn empty_buffer() -> [u8; LONGEST] {
    [0; LONGEST]
}

fn main(rt: HostRuntime) -> io::Result<()> {
    let mut buffer = empty_buffer();
    let (n, _) = input::fill(&mut rt.stdin(), &mut buffer);
    judge_all(rt, &buffer[..n])
}
