// The moments of the accumulated reward: a file in, the level and the moments out, for its own time or for a list of times,
// and where the file holds a starting distribution, the start figures. The row means taken on the way are counted.
#![tactic(auto)]

ghost use Rattle.std.specs.Prelude.{◌≡◌, ◌*◌, ◌^◌, ◌<◌, ◌≤◌, length, get_or};
ghost use Rattle.definitions.specs.Sums.{over};
ghost use Rattle.definitions.specs.File.{state_count};
ghost use Rattle.definitions.specs.Chain.{model_of};
ghost use Rattle.definitions.specs.Rules.{accepted, answer_of, saying};
ghost use Rattle.definitions.specs.Moment.{run_of, outcome, cells_after, LevelBounded};
ghost use Rattle.definitions.specs.Promise.{Promised};
ghost use Rattle.definitions.specs.Series.{means_of_all, series_outcome, levels_after, blocks_after, AreRuns, SeriesPromised, LevelsBounded};
ghost use Rattle.definitions.specs.Order.{NoneRises, NoBlockRises, NoneLowered, NoBlockLowered};
ghost use Rattle.laws.specs.Acceptance.{AcceptedFile, AcceptedSeries};
ghost use Rattle.moments.specs.Filling.{started, Startable};

use definitions::{MOST_TIMES, Refusal, Run, Sizes};
use reader::ModelFile;
use start::StartWeights;
use vectors::{Arrow, LentChain, Rows};

// At most this many states have their rows in smaller arrays: a small file does not pay for the clearing of
// large ones.
const FEW_STATES: usize = 16;

const FEW_PLACES: usize = FEW_STATES * FEW_STATES;

const MOST_PLACES: usize = 64 * 64;

// X of each time, in the first entries of what is lent.
fn write_jumps(rate: u64, times: &[u32], xs: &mut [u64])
    requires { (rate < 2 ^ 32) × (length times.now ≤ length xs.old) }
    ensures { xs.new ≡ over (length times.now) (λ k. rate * get_or times.now k 0) xs.old }
{
    // By number, as the definition has it: with a `zip` the search finds no proof.
    for (k, &time) in times.iter().enumerate() {
        xs[k] = reader::jump_millionths(rate, time);
    }
}

// The start figures after the moments of each block, where the file holds a starting distribution.
fn put_starts(file: &ModelFile, sizes: Sizes, count: usize, cells: &mut [u64])
    requires { Startable file.now sizes count cells.old }
    ensures { cells.new ≡ started (model_of file.now) sizes.block count cells.old }
{
    if file.head.distributions() == 0 {
        return;
    }
    let weights = file.weights();
    let start = StartWeights {
        weights: &weights,
        states: sizes.states,
        highest: sizes.highest,
    };
    start.put_in_blocks(count, cells);
}

// A level and a block for each time of a list, of an accepted file: what it states is read, its rows into so many
// places. Returns the number of row means that it took.
fn fill_with<const PLACES: usize>(
    file: &ModelFile,
    times: &[u32],
    levels: &mut [u64],
    cells: &mut [u64],
) -> u64
    requires accepted_series { AcceptedSeries file.now times.now (length levels.old) (length cells.old) }
    requires places { (state_count file.now * state_count file.now ≤ PLACES) × (PLACES ≤ 4096) }
    ensures levels { levels.new ≡ levels_after (accepted result) file.now times.now levels.old }
    ensures cells { cells.new ≡ blocks_after (accepted result) file.now times.now cells.old }
    ensures means { result ≡ means_of_all file.now times.now }
{
    let sums = file.row_sums();
    let sizes = file.sizes(&sums);
    let mut arrows = [Arrow { target: 0, rate: 0 }; PLACES];
    let mut counts = [0; 64];
    arrows::list_rows(file, &sums, sizes.rate, &mut arrows, &mut counts);
    let rewards = file.rewards();
    let rows = Rows {
        sizes,
        arrows: &arrows,
        counts: &counts,
    };
    let chain = LentChain {
        rows,
        rewards: &rewards,
    };
    let mut xs = [0; MOST_TIMES];
    write_jumps(sizes.rate, times, &mut xs);
    let count = times.len();
    let tolerance = file.head.tolerance();
    let taken = means::solve(&chain, &xs[..count], tolerance, levels, cells);
    put_starts(file, sizes, count, cells);
    taken
}

// The same, with places enough for the rows.
fn fill(file: &ModelFile, times: &[u32], levels: &mut [u64], cells: &mut [u64]) -> u64
    requires { AcceptedSeries file.now times.now (length levels.old) (length cells.old) }
    ensures levels { levels.new ≡ levels_after (accepted result) file.now times.now levels.old }
    ensures cells { cells.new ≡ blocks_after (accepted result) file.now times.now cells.old }
    ensures means { result ≡ means_of_all file.now times.now }
{
    if file.head.state_count() <= FEW_STATES {
        fill_with::<FEW_PLACES>(file, times, levels, cells)
    } else {
        fill_with::<MOST_PLACES>(file, times, levels, cells)
    }
}

// The run and the block for the file's own time: a list of one.
fn fill_own(file: &ModelFile, cells: &mut [u64]) -> Run
    requires { AcceptedFile file.now (length cells.old) }
    ensures { (result ≡ run_of (model_of file.now)) × (cells.new ≡ cells_after (accepted result) file.now cells.old) }
{
    let times = [file.head.time()];
    let mut levels = [0];
    let means = fill(file, &times, &mut levels, cells);
    Run {
        level: levels[0],
        means,
    }
}

// The call: the first row of the table of refusals that holds, with no cell touched; or the level N and the
// number of row means taken, N * M * R, with moment r of state i, counted from 1, in cell (i - 1) * R + (r - 1),
// and for a file of version 2 the start figure for r in cell M * R + (r - 1). The cells past them are as they
// were. A moment is within the tolerance and the rounding of its exact average, a start figure within one tick
// more of the averages weighted so. The level is at most 2 * m + 51, m being the expected jump count, down. In the
// cells of a state, and in those of the start, no figure is above the one before it; and the same call for the
// file with one reward rate raised, but not past the largest, answers the same and leaves no cell lower.
pub fn calculate(file: &[u8], cells: &mut [u64]) -> Result<Run, Refusal>
    ensures outcome { answer_of result ≡ outcome file.now (length cells.old) }
    ensures cells { cells.new ≡ cells_after (answer_of result) file.now cells.old }
    ensures promise { Promised (answer_of result) file.now cells.new }
    ensures bounded { LevelBounded (saying (λ x. x.level) (answer_of result)) file.now }
    ensures order { NoneRises (answer_of result) file.now cells.new }
    ensures raised { NoneLowered (answer_of result) file.now cells.old cells.new }
{
    let model = refusals::judge(file, cells.len())?;
    Ok(fill_own(&model, cells))
}

// The call for several times: the first row of its table of refusals that holds, with no level and no cell
// touched; or the number of row means taken, N * M * R with the largest level N, with the level of time k in
// level cell k and its figures in block k, in the order of `calculate`. Each is what `calculate` gives for the
// file with that time in the place of its own, and each level is at most 2 * m + 51. The levels past the last
// time and the cells past the last block are as they were. In the cells of a state of each block, and in those of
// its start, no figure is above the one before it; and the same call for the file with one reward rate raised,
// but not past the largest, answers the same, gives the same levels and leaves no cell lower.
pub fn series(
    file: &[u8],
    times: &[u32],
    levels: &mut [u64],
    cells: &mut [u64],
) -> Result<u64, Refusal>
    ensures answer { answer_of result ≡ series_outcome file.now times.now (length levels.old) (length cells.old) }
    ensures levels { levels.new ≡ levels_after (answer_of result) file.now times.now levels.old }
    ensures cells { cells.new ≡ blocks_after (answer_of result) file.now times.now cells.old }
    ensures promise { SeriesPromised (answer_of result) file.now times.now levels.new cells.new }
    ensures runs { AreRuns (answer_of result) file.now times.now levels.new cells.old cells.new }
    ensures bounded { LevelsBounded (answer_of result) file.now times.now levels.new }
    ensures order { NoBlockRises (answer_of result) file.now times.now cells.new }
    ensures raised { NoBlockLowered (answer_of result) file.now times.now levels.old levels.new cells.old cells.new }
{
    let model = refusals::judge_series(file, times, levels.len(), cells.len())?;
    Ok(fill(&model, times, levels, cells))
}
