// What stops a file, lent with a list of times or without one: the table's rows in its order, cut into the
// parts that the calls share.
//
// The bytes are a slice of any length, and nothing is asked of them. Those that are accepted are handed on
// as a framed file, so that the crate reader can read what it states.
#![tactic(auto)]

ghost use Rattle.std.specs.Prelude.{◌≡◌, ltb, ◌||◌, ◌++◌, ◌-◌, ◌*◌, ◌≤◌, ◌<◌, ◌^◌, eqb, length, IfOk};
ghost use Rattle.definitions.specs.File.{state_count, highest_moment, time_field};
ghost use Rattle.definitions.specs.Chain.{model_of, uniform_rate};
ghost use Rattle.definitions.specs.Rules.{outside, state_row, dimensions, fitting_length, framing, misweighted, starts_at_zero, quantities, falls_up_to, listing, last_time, jumps, room, block_size, first_held, judged_by, file_judgement, judgement, series_judgement, answer_of, saying};
ghost use Rattle.refusals.specs.Verdict.{verdict};

use definitions::{ALL_WEIGHT, MOST_TIMES, Refusal};
use reader::{Head, ModelFile};

// The largest number that each row lets pass.

const MOST_STATES: u64 = 64;

const MOST_MOMENTS: u64 = 8;

const MOST_TOLERANCE: u64 = 100_000_000;

const MOST_REWARD: u64 = 1_000_000;

const MOST_ROW_SUM: u64 = 10_000_000;

const MOST_JUMPS: u64 = 256_000_000;

// Whether x is not from low to high.
pub fn outside(low: u64, high: u64, x: u64) -> bool
    ensures { result ≡ outside low high x }
{
    !(low..=high).contains(&x)
}

// Row 4: M.
pub fn judge_states(states: u64) -> Result<(), Refusal>
    ensures { answer_of result ≡ judged_by (state_row states) }
{
    if outside(1, MOST_STATES, states) {
        return Err(Refusal::States);
    }
    Ok(())
}

// Rows 4 and 5: M and R.
pub fn judge_dimensions(states: u64, highest: u64) -> Result<(), Refusal>
    ensures { answer_of result ≡ judged_by (dimensions states highest) }
{
    judge_states(states)?;
    if outside(1, MOST_MOMENTS, highest) {
        return Err(Refusal::HighestMoment);
    }
    Ok(())
}

// What the length field holds: 4 × M × M + 11, and 4 × M for each starting distribution.
fn fitting_length(head: &Head) -> u64
    requires { state_count head.now ≤ 64 }
    ensures { result ≡ fitting_length head.now }
{
    let states = head.state_count() as u64;
    let weights = head.distributions() as u64 * states;
    4 * states * states + 4 * weights + 11
}

// Rows 1 to 6: the framing, for a call that admits the versions from low to high. Two numbers, as in `framing`: a range would
// only be taken apart again.
fn judge_framing(bytes: &[u8], low: u64, high: u64) -> Result<ModelFile, Refusal>
    ensures judged { verdict result ≡ judged_by (framing low high bytes.now) }
    ensures same { IfOk result (λ file. file ≡ bytes.now) }
{
    let head = Head::new(bytes).ok_or(Refusal::TooShort)?;
    let length = head.length_field();
    if length != (bytes.len() - 2) as u64 {
        return Err(Refusal::LengthField);
    }
    if outside(low, high, head.version()) {
        return Err(Refusal::Version);
    }
    judge_dimensions(head.state_count() as u64, head.highest_moment() as u64)?;
    if length != fitting_length(&head) {
        return Err(Refusal::Size);
    }
    Ok(ModelFile { head })
}

// Whether a list of times starts with 0. One without a time does not.
fn starts_at_zero(times: &[u32]) -> bool
    ensures { result ≡ starts_at_zero times.now }
{
    times.first() == Some(&0)
}

// Row 8: the file's time is 0, or a list of times starts with 0.
fn without_time(head: &Head, times: &[u32]) -> bool
    ensures { result ≡ (eqb (time_field head.now) 0 || starts_at_zero times.now) }
{
    head.time() == 0 || starts_at_zero(times)
}

// Row 16: the file holds a starting distribution, and its weights do not sum to 1,000,000.
fn misweighted(file: &ModelFile) -> bool
    ensures { result ≡ misweighted (model_of file.now) }
{
    file.head.distributions() > 0 && file.weight_sum() != ALL_WEIGHT
}

// Rows 7, 8, 16 and 9 to 11: the quantities, past which E, the uniformization rate, is handed on. Some row
// sum is above its limit just where E is.
fn judge_quantities(file: &ModelFile, times: &[u32]) -> Result<u64, Refusal>
    ensures { answer_of result ≡ first_held (quantities (model_of file.now) times.now) (uniform_rate (model_of file.now)) }
{
    if outside(1, MOST_TOLERANCE, file.head.tolerance()) {
        return Err(Refusal::Tolerance);
    }
    if without_time(&file.head, times) {
        return Err(Refusal::Time);
    }
    if misweighted(file) {
        return Err(Refusal::StartWeights);
    }
    let most = file.max_reward();
    if most > MOST_REWARD {
        return Err(Refusal::RewardTooLarge);
    }
    if most == 0 {
        return Err(Refusal::NoReward);
    }
    let sums = file.row_sums();
    let rate = file.uniform_rate(&sums);
    if rate > MOST_ROW_SUM {
        return Err(Refusal::RatesTooLarge);
    }
    Ok(rate)
}

// Rows 1 to 11 and 16, of a file lent with a list of times, by a call that admits the versions from low to
// high: the file, with E. A call without a list lends an empty one.
pub fn judge_model<'a>(
    bytes: &'a [u8],
    low: u64,
    high: u64,
    times: &[u32],
) -> Result<(ModelFile<'a>, u64), Refusal>
    ensures rated { saying (λ accepted. accepted.1) (answer_of result) ≡ first_held (framing low high bytes.now ++ quantities (model_of bytes.now) times.now) (uniform_rate (model_of bytes.now)) }
    ensures same { IfOk result (λ accepted. accepted.0 ≡ bytes.now) }
{
    let file = judge_framing(bytes, low, high)?;
    let rate = judge_quantities(&file, times)?;
    Ok((file, rate))
}

// Row 12, for one time: E × T is above its limit.
fn judge_jumps(rate: u64, time: u32) -> Result<(), Refusal>
    requires { rate < 2 ^ 32 }
    ensures { answer_of result ≡ judged_by (jumps rate time) }
{
    if reader::jump_millionths(rate, time) > MOST_JUMPS {
        return Err(Refusal::TooManyJumps);
    }
    Ok(())
}

// Rows 1 to 12 and 16, of a file at its own time, by a call that admits the versions from low to high.
pub fn judge_file(bytes: &[u8], low: u64, high: u64) -> Result<ModelFile, Refusal>
    ensures judged { verdict result ≡ file_judgement low high bytes.now }
    ensures same { IfOk result (λ file. file ≡ bytes.now) }
{
    let (file, rate) = judge_model(bytes, low, high, &[])?;
    judge_jumps(rate, file.head.time())?;
    Ok(file)
}

// Row 13, for a number of blocks: the room for their figures.
fn judge_room(file: &ModelFile, blocks: usize, cells: usize) -> Result<(), Refusal>
    requires { (highest_moment file.now ≤ 8) × (blocks ≤ 8) }
    ensures { answer_of result ≡ judged_by (room (blocks * block_size file.now) cells) }
{
    if cells < blocks * file.block_size() {
        return Err(Refusal::Room);
    }
    Ok(())
}

// The first row that holds, for a file of either version lent with so many answer cells; the file where
// none does. One block is asked for.
pub fn judge(bytes: &[u8], cells: usize) -> Result<ModelFile, Refusal>
    ensures judged { verdict result ≡ judgement bytes.now cells }
    ensures same { IfOk result (λ file. file ≡ bytes.now) }
{
    let file = judge_file(bytes, 1, 2)?;
    judge_room(&file, 1, cells)?;
    Ok(file)
}

// Whether some time is not above the one before it.
fn falls(times: &[u32]) -> bool
    ensures { result ≡ falls_up_to (length times.now - 1) times.now }
{
    !times.is_sorted_by(
        |earlier, later|
            ensures { result ≡ ltb earlier.now later.now }
        { earlier < later },
    )
}

// Rows 14, 15, 12 and 13: the list of times, then the jumps up to its last one, and the room for a block
// and a level of each.
fn judge_times(
    file: &ModelFile,
    rate: u64,
    times: &[u32],
    levels: usize,
    cells: usize,
) -> Result<(), Refusal>
    requires { (highest_moment file.now ≤ 8) × (rate < 2 ^ 32) }
    ensures { answer_of result ≡ judged_by (listing times.now ++ jumps rate (last_time times.now) ++ room (length times.now * block_size file.now) cells ++ room (length times.now) levels) }
{
    let count = times.len();
    if outside(1, MOST_TIMES as u64, count as u64) {
        return Err(Refusal::TimesCount);
    }
    if falls(times) {
        return Err(Refusal::TimesOrder);
    }
    judge_jumps(rate, times[count - 1])?;
    judge_room(file, count, cells)?;
    if levels < count {
        return Err(Refusal::Room);
    }
    Ok(())
}

// The first row that holds, for a file of either version and a list of times, lent with so many level cells
// and answer cells; the file where none does. They are two counts, since a caller, from C too, lends two buffers.
pub fn judge_series<'a>(
    bytes: &'a [u8],
    times: &[u32],
    levels: usize,
    cells: usize,
) -> Result<ModelFile<'a>, Refusal>
    ensures judged { verdict result ≡ series_judgement bytes.now times.now levels cells }
    ensures same { IfOk result (λ file. file ≡ bytes.now) }
{
    let (file, rate) = judge_model(bytes, 1, 2, times)?;
    judge_times(&file, rate, times, levels, cells)?;
    Ok(file)
}
