// The start figures of a file of version 2: for each r the mean of the states' moments r, weighted by the starting
// distribution.
//
// Moments stand in blocks of cells, cell i * R + r of a block being the moment r + 1 of state i. The R start figures follow
// the M * R moments, as those of one more state.
#![tactic(auto)]

ghost use Rattle.std.specs.Prelude.{◌≡◌, ◌+◌, ◌*◌, ◌%◌, ◌≤◌, ◌<◌, length, get_or};
ghost use Rattle.definitions.specs.Sums.{over, blocks};
ghost use Rattle.definitions.specs.Division.{Divides};
ghost use Rattle.definitions.specs.Weights.{MILLION};
ghost use Rattle.definitions.specs.Moment.{start_mean};
ghost use Rattle.laws.specs.ArrayLaws.{entry_of};
ghost use Rattle.start.specs.Figures.{moments_of, start_total, start_cell, Distribution, Moments, AllMoments};

use definitions::ALL_WEIGHT;

// A starting distribution over M states, for moments up to R.
#[derive(Clone, Copy)]
pub struct StartWeights<'a> {
    pub weights: &'a [u64; 64],
    pub states: usize,
    pub highest: usize,
    pub ghost distribution: { Distribution weights.now states },
}

impl StartWeights<'_> {
    // The start figure for the moment r + 1: the sum over the states of weight * moment by 1,000,000, whose remainder is
    // dropped.
    fn figure(&self, r: usize, block: &[u64]) -> u64
        requires { Moments block.now self.now.states self.now.highest × (r < self.now.highest) }
        ensures { let moments = moments_of self.now.highest r (entry_of block.now) in (result ≡ start_mean self.now.states (entry_of self.now.weights.now) moments) × Divides (start_total self.now.weights.now self.now.states moments) MILLION result (start_total self.now.weights.now self.now.states moments % MILLION) }
    {
        let weights = self.weights;
        let mut total = 0;
        // By number: every R-th cell is a cell of moment r, and no slice holds these alone.
        for (i, weight) in weights[..self.states].iter().enumerate() {
            total += weight * block[i * self.highest + r];
        }
        total / ALL_WEIGHT
    }

    // The start figures of one block, after its moments.
    fn put_figures(&self, block: &mut [u64])
        requires { Moments block.old self.now.states self.now.highest × ((self.now.states + 1) * self.now.highest ≤ length block.old) }
        ensures { block.new ≡ over ((self.now.states + 1) * self.now.highest) (start_cell (entry_of self.now.weights.now) self.now.states self.now.highest (entry_of block.old)) block.old }
    {
        let moments = self.states * self.highest;
        for r in 0..self.highest {
            block[moments + r] = self.figure(r, block);
        }
    }

    // The same in the first blocks: each has its own moments.
    pub fn put_in_blocks(&self, count: usize, cells: &mut [u64])
        requires { AllMoments cells.old self.now.states self.now.highest count }
        ensures { cells.new ≡ blocks ((self.now.states + 1) * self.now.highest) count (λ k. start_cell (entry_of self.now.weights.now) self.now.states self.now.highest (λ e. get_or cells.old (k * ((self.now.states + 1) * self.now.highest) + e) 0)) cells.old }
    {
        let block = (self.states + 1) * self.highest;
        // By number: of what `chunks_mut` lent, nothing is known afterwards.
        for k in 0..count {
            self.put_figures(&mut cells[k * block..(k + 1) * block]);
        }
    }
}
