// Prints weights and truncation levels, to be compared with what cases.py computes from document 01.
#![tactic(auto)]

use poisson::LEVELS;
use std::io;

// X, the expected jump count in millionths, and the tolerance in billionths.
const CASES: [(u64, u64); 26] = [
    (1, 1),
    (1, 10_000),
    (1, 100_000_000),
    (999_999, 1),
    (999_999, 10_000),
    (999_999, 100_000_000),
    (1_000_000, 1),
    (1_000_000, 10_000),
    (1_000_000, 100_000_000),
    (256_000_000, 1),
    (256_000_000, 10_000),
    (256_000_000, 100_000_000),
    (2, 100_000_000),
    (500_000, 1),
    (1_000_001, 100_000_000),
    (1_999_999, 7),
    (2_000_000, 10_000),
    (9_999_999, 99_999_999),
    (37_123_456, 1),
    (64_000_000, 1_000_000),
    (100_000_001, 10_000),
    (128_500_000, 3),
    (200_000_000, 50_000_000),
    (255_999_999, 1),
    (0, 1),
    (0, 100_000_000),
];

// A prime, so that each entry counts in the checksum.
const PRIME: u64 = 1_000_000_007;

fn main(rt: HostRuntime) -> io::Result<()> {
    show_b(rt)?;
    for (x, tolerance) in CASES {
        show(rt, x, tolerance)?;
    }
    Ok(())
}

// File B: X is 1,000,000 and the tolerance 100,000,000. Its weights 0 to 3, and its level.
fn show_b(rt: HostRuntime) -> io::Result<()> {
    let mut w = [0u64; LEVELS];
    let cut = poisson::truncate(1_000_000, 100_000_000, &mut w);
    println!(rt; "B {} {} {} {} {}", w[0], w[1], w[2], w[3], cut.level)
}

// X, the tolerance, the level N, S(N), and the checksum of the array: w(0) to w(N), and 7 past N as before.
fn show(rt: HostRuntime, x: u64, tolerance: u64) -> io::Result<()> {
    if x > 256_000_000 || tolerance < 1 || tolerance > 100_000_000 {
        return Ok(());
    }
    let mut w = [7u64; LEVELS];
    let cut = poisson::truncate(x, tolerance, &mut w);
    let sum = checksum(&w);
    println!(rt; "{x} {tolerance} {} {} {sum}", cut.level, cut.sum)
}

// c = 31 * c + w(n) by PRIME, over the whole array, n rising from 0.
fn checksum(w: &[u64]) -> u64 {
    let mut c = 0;
    for x in w {
        c = (31 * c + x % PRIME) % PRIME;
    }
    c
}
