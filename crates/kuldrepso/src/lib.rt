// The calls for C and Rust: `./build kuldrepso` puts them into a static library, and include/kuldrepso.h declares them.
//
// C knows no enum of Rattle's, so an answer goes out as one plain number, and a refusal as that of its row. A slice comes as a pointer and a length.
#![tactic(auto)]

ghost use Rattle.std.specs.Prelude.{◌≡◌, ◌+◌, length};
ghost use Rattle.definitions.specs.Rules.{answer_of, saying};
ghost use Rattle.definitions.specs.Moment.{outcome, cells_after, count_after, LevelBounded};
ghost use Rattle.definitions.specs.Promise.{Promised};
ghost use Rattle.definitions.specs.Series.{series_outcome, levels_after, blocks_after, AreRuns, SeriesPromised, LevelsBounded};
ghost use Rattle.definitions.specs.Order.{NoneRises, NoBlockRises, NoneLowered, NoBlockLowered};
ghost use Rattle.definitions.specs.Remainders.{remainders_of, number_after, WorkedOut};
ghost use Rattle.definitions.specs.Refusal.{row_of};
ghost use Rattle.definitions.specs.Written.{count_of, bytes_after};
ghost use Rattle.definitions.specs.Convert.{to_version_2, to_version_1, ThereAndBack};
ghost use Rattle.definitions.specs.Practice.{practice, DealtWell};
ghost use Rattle.kuldrepso.specs.Plain.{refusals_from, plain_answer, meant, given_or_none, with_numbers, Tells};

use definitions::Refusal;

// Refusal k goes out as this and k. No other answer is near it: the greatest level is 563, the most times are 8, and the
// longest file has 16,653 bytes.
const REFUSED: u64 = 1_000_000;

// Remainders that are given, and none.
const GIVEN: u64 = 0;

const NONE: u64 = 1;

// The number of a refusal.
fn refused(refusal: Refusal) -> u64
    ensures { result ≡ refusals_from + row_of refusal }
{
    REFUSED + u64::from(refusal.row())
}

// moments::calculate, with the level N for an acceptance and REFUSED + k for refusal k. An acceptance writes the number of
// row means to `means`; a refusal leaves it as it was.
#[unsafe(no_mangle)]
pub extern "C" fn kuldrepso_calculate(file: &[u8], cells: &mut [u64], means: &mut u64) -> u64
    ensures answer { Tells result (saying (λ x. x.level) (outcome file.now (length cells.old))) }
    ensures cells { cells.new ≡ cells_after (outcome file.now (length cells.old)) file.now cells.old }
    ensures promise { Promised (outcome file.now (length cells.old)) file.now cells.new }
    ensures bounded { LevelBounded (meant result) file.now }
    ensures order { NoneRises (outcome file.now (length cells.old)) file.now cells.new }
    ensures raised { NoneLowered (outcome file.now (length cells.old)) file.now cells.old cells.new }
    ensures means { means.new ≡ count_after (saying (λ x. x.means) (outcome file.now (length cells.old))) means.old }
{
    match moments::calculate(file, cells) {
        Ok(run) => {
            *means = run.means;
            run.level
        }
        Err(refusal) => refused(refusal),
    }
}

// moments::series, with the number of times for an acceptance and REFUSED + k for refusal k. An acceptance writes the number
// of row means to `means`; a refusal leaves it as it was.
#[unsafe(no_mangle)]
pub extern "C" fn kuldrepso_series(
    file: &[u8],
    times: &[u32],
    levels: &mut [u64],
    cells: &mut [u64],
    means: &mut u64,
) -> u64
    ensures answer { Tells result (saying (λ n. length times.now) (series_outcome file.now times.now (length levels.old) (length cells.old))) }
    ensures levels { levels.new ≡ levels_after (series_outcome file.now times.now (length levels.old) (length cells.old)) file.now times.now levels.old }
    ensures cells { cells.new ≡ blocks_after (series_outcome file.now times.now (length levels.old) (length cells.old)) file.now times.now cells.old }
    ensures promise { SeriesPromised (series_outcome file.now times.now (length levels.old) (length cells.old)) file.now times.now levels.new cells.new }
    ensures runs { AreRuns (series_outcome file.now times.now (length levels.old) (length cells.old)) file.now times.now levels.new cells.old cells.new }
    ensures bounded { LevelsBounded (series_outcome file.now times.now (length levels.old) (length cells.old)) file.now times.now levels.new }
    ensures order { NoBlockRises (series_outcome file.now times.now (length levels.old) (length cells.old)) file.now times.now cells.new }
    ensures raised { NoBlockLowered (series_outcome file.now times.now (length levels.old) (length cells.old)) file.now times.now levels.old levels.new cells.old cells.new }
    ensures means { means.new ≡ count_after (series_outcome file.now times.now (length levels.old) (length cells.old)) means.old }
{
    match moments::series(file, times, levels, cells) {
        Ok(taken) => {
            *means = taken;
            times.len() as u64
        }
        Err(refusal) => refused(refusal),
    }
}

// remainders::remainders, with GIVEN, NONE and REFUSED + k for refusal k. Remainders that are given are written to the three
// numbers, which else stay.
#[unsafe(no_mangle)]
pub extern "C" fn kuldrepso_remainders(
    file: &[u8],
    state: u64,
    n: u64,
    r: u64,
    mean: &mut u64,
    share: &mut u64,
    mix: &mut u64,
) -> u64
    ensures answer { Tells result (saying given_or_none (remainders_of file.now state n r)) }
    ensures mean { mean.new ≡ number_after (remainders_of file.now state n r) (λ x. x.mean) mean.old }
    ensures share { share.new ≡ number_after (remainders_of file.now state n r) (λ x. x.share) share.old }
    ensures mix { mix.new ≡ number_after (remainders_of file.now state n r) (λ x. x.mix) mix.old }
    ensures worked { WorkedOut (with_numbers (remainders_of file.now state n r) (record { mean = mean.new; share = share.new; mix = mix.new })) file.now state n r }
{
    match remainders::remainders(file, state, n, r) {
        Ok(Some(rests)) => {
            *mean = rests.mean;
            *share = rests.share;
            *mix = rests.mix;
            GIVEN
        }
        Ok(None) => NONE,
        Err(refusal) => refused(refusal),
    }
}

// The answer of a call that writes a file, with the count of bytes for an acceptance.
fn plain(answer: Result<usize, Refusal>) -> u64
    ensures { result ≡ plain_answer (answer_of answer) }
{
    match answer {
        Ok(count) => count as u64,
        Err(why) => refused(why),
    }
}

// convert::to_version_2, with the count of bytes for an acceptance and REFUSED + k for refusal k.
#[unsafe(no_mangle)]
pub extern "C" fn kuldrepso_to_version_2(file: &[u8], out: &mut [u8]) -> u64
    ensures answer { Tells result (count_of (to_version_2 file.now (length out.old))) }
    ensures bytes { out.new ≡ bytes_after (to_version_2 file.now (length out.old)) out.old }
    ensures moved { ThereAndBack (to_version_2 file.now (length out.old)) file.now to_version_1 }
{
    plain(convert::to_version_2(file, out))
}

// convert::to_version_1, likewise.
#[unsafe(no_mangle)]
pub extern "C" fn kuldrepso_to_version_1(file: &[u8], out: &mut [u8]) -> u64
    ensures answer { Tells result (count_of (to_version_1 file.now (length out.old))) }
    ensures bytes { out.new ≡ bytes_after (to_version_1 file.now (length out.old)) out.old }
    ensures moved { ThereAndBack (to_version_1 file.now (length out.old)) file.now to_version_2 }
{
    plain(convert::to_version_1(file, out))
}

// practice::practice, with the count of bytes for an acceptance and REFUSED + k for refusal k.
#[unsafe(no_mangle)]
pub extern "C" fn kuldrepso_practice(states: u64, highest: u64, seed: u32, out: &mut [u8]) -> u64
    ensures answer { Tells result (count_of (practice states highest seed (length out.old))) }
    ensures bytes { out.new ≡ bytes_after (practice states highest seed (length out.old)) out.old }
    ensures dealt { DealtWell (practice states highest seed (length out.old)) states highest seed }
{
    plain(practice::practice(states, highest, seed, out))
}
