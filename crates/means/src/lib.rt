// The weighted means of the vectors of a chain that stands in arrays, for a list of expected jump counts X: a level for
// each X, and a block of cells that starts with its M × R moments. The vectors are computed once for all of them. The
// cells of a block past the moments are 0.
//
// The sums A stand in the cells until they are divided. The weights of X number k are row k, LEVELS entries long.
#![tactic(auto)]

ghost use Rattle.std.specs.Prelude.{◌≡◌, [], ◌+◌, ◌*◌, ◌%◌, ◌^◌, ◌<◌, ◌≤◌, length, get_or};
ghost use Rattle.definitions.specs.Sums.{largest, over, blocks};
ghost use Rattle.definitions.specs.Division.{Divides, Rounds};
ghost use Rattle.definitions.specs.Vectors.{ONE, row_means};
ghost use Rattle.definitions.specs.Moment.{term, last_quotient};
ghost use Rattle.laws.specs.LevelLaws.{LEVELS};
ghost use Rattle.vectors.specs.Lent.{chain_in};
ghost use Rattle.means.specs.Running.{in_table, row_from, term_at, of_states, part_sums, Topmost, Addable, AddableAt, AllAddable, Summable, Divisible, AllDivisible};
ghost use Rattle.means.specs.Solving.{Truncatable, Truncations, level_of, weight_rows, means_of, Solvable};

use definitions::{MOST_TIMES, ONE, Sizes};
use vectors::LentChain;

// The vectors of one n: row r of the table is U(n,r).
#[derive(Clone, Copy)]
struct Vectors<'a> {
    sizes: Sizes,
    n: u64,
    table: &'a [[u64; 64]; 9],
}

// A term of A, from w(n) and U(n,r) at a state: the remainder of their product by 10^12 is dropped.
fn term(w: u64, u: u64) -> u64
    requires { (w ≤ 10 ^ 15) × (u ≤ ONE) }
    ensures { (result ≡ term w u) × Divides (w * u) ONE result (w * u % ONE) }
{
    muldiv::over_trillion(w, u).quotient
}

impl Vectors<'_> {
    // The sums A of one X and state i, with the terms of n added: w is w(n), and cell r - 1 is that of moment r.
    fn add_terms_at(&self, i: usize, w: u64, cells: &mut [u64])
        requires { AddableAt w cells.old self.now.table.now i }
        ensures { cells.new ≡ over (length cells.old) (λ r. get_or cells.old r 0 + term w (get_or (get_or self.now.table.now (r + 1) []) i 0)) cells.old }
    {
        for (r, cell) in cells.iter_mut().enumerate() {
            *cell += term(w, self.table[r + 1][i]);
        }
    }

    // The same for all states, each with its R cells.
    fn add_terms(&self, w: u64, cells: &mut [u64])
        requires { Addable self.now.sizes w cells.old self.now.table.now }
        ensures { cells.new ≡ over (self.now.sizes.states * self.now.sizes.highest) (λ k. get_or cells.old k 0 + term w (in_table self.now.table.now self.now.sizes.highest k)) cells.old }
    {
        let highest = self.sizes.highest;
        // By number: of what `chunks_mut` lent, nothing is known afterwards.
        for i in 0..self.sizes.states {
            self.add_terms_at(i, w, &mut cells[i * highest..(i + 1) * highest]);
        }
    }

    // The same up to the level, with w(n) from a row of weights; past the level the sums stay. A weight of 0 has terms of 0,
    // and they are not worked out.
    fn add_up_to_level(&self, level: u64, row: &[u64], cells: &mut [u64])
        requires { (self.now.n ≤ level → self.now.n < length row.now) × (self.now.n ≤ level → Addable self.now.sizes (get_or row.now self.now.n 0) cells.old self.now.table.now) × (self.now.sizes.states * self.now.sizes.highest ≤ length cells.old) }
        ensures { cells.new ≡ over (self.now.sizes.states * self.now.sizes.highest) (λ e. get_or cells.old e 0 + term_at row.now self.now.n level (in_table self.now.table.now self.now.sizes.highest e)) cells.old }
    {
        if self.n > level {
            return;
        }
        let w = row[self.n as usize];
        if w == 0 {
            return;
        }
        self.add_terms(w, cells);
    }

    // The same for every X: block k of the cells has the sums of X number k.
    fn add_to_blocks(&self, levels: &[u64], weights: &[u64], cells: &mut [u64])
        requires { AllAddable self.now.sizes self.now.n levels.now weights.now cells.old self.now.table.now }
        ensures { cells.new ≡ blocks self.now.sizes.block (length levels.now) (λ k e. get_or cells.old (k * self.now.sizes.block + e) 0 + of_states (self.now.sizes.states * self.now.sizes.highest) e (term_at (row_from weights.now k) self.now.n (get_or levels.now k 0) (in_table self.now.table.now self.now.sizes.highest e))) cells.old }
    {
        let block = self.sizes.block;
        // By number: of what `chunks_mut` lent, nothing is known afterwards.
        for (k, &level) in levels.iter().enumerate() {
            let row = &weights[k * poisson::LEVELS..];
            self.add_up_to_level(level, row, &mut cells[k * block..(k + 1) * block]);
        }
    }
}

// The sums A in all blocks: for every X, the sum over n = 0 to its level of w(n) * U(n,r) over 10^12. The vectors of each
// n are computed once, as far as the largest level needs. Returns how many row means they took.
fn accumulate(
    chain: &LentChain,
    levels: &[u64],
    largest: u64,
    weights: &[u64],
    cells: &mut [u64],
) -> u64
    requires { Summable chain.now.rows.sizes levels.now weights.now × Topmost largest levels.now × (length levels.now * chain.now.rows.sizes.block ≤ length cells.old) }
    ensures cells { cells.new ≡ part_sums (chain_in chain.now) chain.now.rows.sizes.block levels.now weights.now chain.now.rows.sizes.highest (largest + 1) cells.old }
    ensures taken { result ≡ row_means largest chain.now.rows.sizes.states chain.now.rows.sizes.highest }
{
    let sizes = chain.rows.sizes;
    let mut table = [[0; 64]; 9];
    vectors::first_table(sizes, chain.rewards, &mut table);
    cells[..levels.len() * sizes.block].fill(0);
    let first = Vectors {
        sizes,
        n: 0,
        table: &table,
    };
    first.add_to_blocks(levels, weights, cells);
    let mut taken = 0;
    for n in 1..=largest {
        chain.next_table(n, &mut table, &mut taken);
        let next = Vectors {
            sizes,
            n,
            table: &table,
        };
        next.add_to_blocks(levels, weights, cells);
    }
    taken
}

// The last quotient: A * 10^12 by S(N), to the nearest tick. It rounds by the remainder: one more where twice that
// reaches S(N).
fn last_quotient(sum: u64, total: u64) -> u64
    requires { (sum ≤ total) × (0 < total) × (total < 2 ^ 62) }
    ensures { (result ≡ last_quotient sum total) × Rounds (sum * ONE) total result (sum * ONE % total) }
{
    let down = muldiv::scaled(sum, ONE, total);
    if 2 * down.remainder >= total {
        down.quotient + 1
    } else {
        down.quotient
    }
}

// The moments in the place of the sums: the last quotient of each.
fn divide_sums(total: u64, sums: &mut [u64])
    requires { Divisible sums.old total }
    ensures { sums.new ≡ over (length sums.old) (λ k. last_quotient (get_or sums.old k 0) total) sums.old }
{
    for sum in sums {
        *sum = last_quotient(*sum, total);
    }
}

// The same in all blocks, each with its own S(N).
fn divide_blocks(totals: &[u64], block: usize, cells: &mut [u64])
    requires { AllDivisible cells.old totals.now block }
    ensures { cells.new ≡ blocks block (length totals.now) (λ k e. last_quotient (get_or cells.old (k * block + e) 0) (get_or totals.now k 0)) cells.old }
{
    // By number: of what `chunks_mut` lent, nothing is known afterwards.
    for (k, &total) in totals.iter().enumerate() {
        divide_sums(total, &mut cells[k * block..(k + 1) * block]);
    }
}

// For each X its level, its S(N) and its row of weights. Returns the largest level: it need not be that of the last X.
// The levels stand in a list of their own, since the caller lends it; by number, since the rows of weights are.
fn truncate_each(
    xs: &[u64],
    tolerance: u64,
    levels: &mut [u64],
    totals: &mut [u64],
    weights: &mut [u64],
) -> u64
    requires { Truncatable xs.now tolerance × (length xs.now ≤ length levels.old) × (length xs.now ≤ length totals.old) × (length xs.now * LEVELS ≤ length weights.old) }
    ensures { Truncations xs.now tolerance result levels.old levels.new totals.old totals.new weights.old weights.new }
{
    let mut largest = 0;
    for (k, &x) in xs.iter().enumerate() {
        let row = &mut weights[k * poisson::LEVELS..];
        let cut = poisson::truncate(x, tolerance, row);
        levels[k] = cut.level;
        totals[k] = cut.sum;
        largest = cut.level.max(largest);
    }
    largest
}

// The levels of a list of X, and the moments of a chain in arrays for each: level k and block k of the cells are those of X
// number k, with 0 in the cells of a block past the moments. The rows of weights are lent, and levels and cells are the two
// buffers of the caller, from C too. Returns the number of row means that it took.
fn solve_with(
    chain: &LentChain,
    xs: &[u64],
    tolerance: u64,
    weights: &mut [u64],
    levels: &mut [u64],
    cells: &mut [u64],
) -> u64
    requires solvable { Solvable chain.now.rows.sizes xs.now tolerance }
    requires xs_in_bounds { (length xs.now * LEVELS ≤ length weights.old) × (length xs.now ≤ length levels.old) × (length xs.now * chain.now.rows.sizes.block ≤ length cells.old) }
    ensures weights { weights.new ≡ weight_rows xs.now tolerance weights.old }
    ensures levels { levels.new ≡ over (length xs.now) (level_of xs.now tolerance) levels.old }
    ensures cells { cells.new ≡ blocks chain.now.rows.sizes.block (length xs.now) (means_of (chain_in chain.now) xs.now tolerance chain.now.rows.sizes.highest) cells.old }
    ensures taken { result ≡ row_means (largest (length xs.now) (level_of xs.now tolerance)) chain.now.rows.sizes.states chain.now.rows.sizes.highest }
{
    let count = xs.len();
    let mut totals = [0; MOST_TIMES];
    let largest = truncate_each(xs, tolerance, levels, &mut totals, weights);
    let taken = accumulate(chain, &levels[..count], largest, weights, cells);
    divide_blocks(&totals[..count], chain.rows.sizes.block, cells);
    taken
}

// The same, with room enough for the weights: one row of them is less to clear than eight.
pub fn solve(
    chain: &LentChain,
    xs: &[u64],
    tolerance: u64,
    levels: &mut [u64],
    cells: &mut [u64],
) -> u64
    requires solvable { Solvable chain.now.rows.sizes xs.now tolerance }
    requires xs_in_bounds { (length xs.now ≤ length levels.old) × (length xs.now * chain.now.rows.sizes.block ≤ length cells.old) }
    ensures levels { levels.new ≡ over (length xs.now) (level_of xs.now tolerance) levels.old }
    ensures cells { cells.new ≡ blocks chain.now.rows.sizes.block (length xs.now) (means_of (chain_in chain.now) xs.now tolerance chain.now.rows.sizes.highest) cells.old }
    ensures taken { result ≡ row_means (largest (length xs.now) (level_of xs.now tolerance)) chain.now.rows.sizes.states chain.now.rows.sizes.highest }
{
    if xs.len() <= 1 {
        solve_with(
            chain,
            xs,
            tolerance,
            &mut [0; poisson::LEVELS],
            levels,
            cells,
        )
    } else {
        solve_with(
            chain,
            xs,
            tolerance,
            &mut [0; MOST_TIMES * poisson::LEVELS],
            levels,
            cells,
        )
    }
}
