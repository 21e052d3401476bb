// Writes the reward vectors of the two model files of the input, one with 2 states and one with 64. A line
// has n, r, and U(n,r) at each state; the last line of a file has the number of row means taken. cases.py makes the
// files, and the numbers to expect.
#![tactic(auto)]

ghost use Rattle.std.specs.Prelude.{◌≤◌};
ghost use Rattle.laws.specs.Acceptance.{AcceptedFile};

use definitions::Sizes;
use reader::ModelFile;
use std::io;
use vectors::{Arrow, LentChain, Rows};

// A version 1 file with M states has 4 * M * M + 13 bytes.
fn main(rt: HostRuntime) -> io::Result<()> {
    let mut two = [0u8; 29];
    let (count, _) = input::fill(&mut rt.stdin(), &mut two);
    vectors_of(rt, &two[..count], 3)?;
    let mut many = [0u8; 16397];
    let (count, _) = input::fill(&mut rt.stdin(), &mut many);
    vectors_of(rt, &many[..count], 9)
}

// The vectors of a file, for n = 0 to last, a plain number that is handed down.
fn vectors_of(rt: HostRuntime, bytes: &[u8], last: u64) -> io::Result<()>
    requires { last ≤ 1024 }
{
    match refusals::judge(bytes, 520) {
        Ok(file) => accepted_vectors(rt, &file, last),
        Err(_) => println!(rt; "refused"),
    }
}

// Those of an accepted file: what it states is read into arrays.
fn accepted_vectors(rt: HostRuntime, file: &ModelFile, last: u64) -> io::Result<()>
    requires { AcceptedFile file.now 520 × (last ≤ 1024) }
{
    let sums = file.row_sums();
    let sizes = file.sizes(&sums);
    let mut arrows = [Arrow { target: 0, rate: 0 }; 4096];
    let mut counts = [0usize; 64];
    arrows::list_rows(file, &sums, sizes.rate, &mut arrows, &mut counts);
    let rewards = file.rewards();
    let chain = LentChain {
        rows: Rows {
            sizes,
            arrows: &arrows,
            counts: &counts,
        },
        rewards: &rewards,
    };
    tables(rt, &chain, last)
}

// Those of a chain that stands in arrays.
fn tables(rt: HostRuntime, chain: &LentChain, last: u64) -> io::Result<()>
    requires { (chain.now.rows.sizes.highest ≤ 8) × (last ≤ 1024) }
{
    let sizes = chain.rows.sizes;
    let mut current = [[0; 64]; 9];
    vectors::first_table(sizes, chain.rewards, &mut current);
    table(rt, sizes, 0, last, &current)?;
    let mut taken = 0;
    for n in 1..=last {
        chain.next_table(n, &mut current, &mut taken);
        table(rt, sizes, n, last, &current)?;
    }
    println!(rt; "{taken}")
}

// The lines of one n, where it is at most 3 or the last.
fn table(rt: HostRuntime, sizes: Sizes, n: u64, last: u64, rows: &[[u64; 64]; 9]) -> io::Result<()>
    requires { (sizes.states ≤ 64) × (sizes.highest ≤ 8) }
{
    if n > 3 && n < last {
        return Ok(());
    }
    for r in 0..=sizes.highest {
        print!(rt; "{n} {r}")?;
        for x in &rows[r][..sizes.states] {
            print!(rt; " {x}")?;
        }
        println!(rt; "")?;
    }
    Ok(())
}
