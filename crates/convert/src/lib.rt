// A model file moved to the other version (document 02, S-5): a version 1 file to version 2, with all weight
// on state 1, and such a version 2 file back to version 1.
//
// The moved file is written at the start of what is lent. A refusal writes nothing.
#![tactic(auto)]

ghost use Rattle.std.specs.Prelude.{◌≡◌, [], ◌∷◌, ◌++◌, ◌+◌, ◌-◌, ◌*◌, ◌≤◌, length, take, drop, replicate};
ghost use Rattle.definitions.specs.Sums.{any_above};
ghost use Rattle.definitions.specs.Bytes.{bytes_of};
ghost use Rattle.definitions.specs.File.{state_count, weight_field};
ghost use Rattle.definitions.specs.Rules.{accepted, answer_of, file_judgement};
ghost use Rattle.definitions.specs.Written.{count_of, bytes_after};
ghost use Rattle.definitions.specs.Convert.{moved_to_2, moved_to_1, to_version_2, to_version_1, ThereAndBack};
ghost use Rattle.writing.specs.Puts.{Puts};
ghost use Rattle.writing.specs.Printed.{Printed};

use definitions::{ALL_WEIGHT, Refusal};
use reader::ModelFile;
use writing::Pen;

// Row 17: whether a state other than the first has weight.
fn weight_elsewhere(file: &ModelFile) -> bool
    ensures { result ≡ any_above 0 (state_count file.now - 1) (λ i. weight_field file.now (i + 1)) }
{
    let weights = file.weights();
    weights[1..file.head.state_count()]
        .iter()
        .any(|&weight| weight > 0)
}

// The first 13 bytes of the moved file: its length field, its version, and bytes 3 to 12 as the file has them.
fn put_header(pen: &mut Pen, bytes: &[u8], later: u64, version: u8)
    requires { (13 ≤ length bytes.now) × (pen.old.at + 13 ≤ length pen.old.out.now) }
    ensures { Puts (bytes_of 2 later ++ (version ∷ []) ++ take 10 (drop 3 bytes.now)) 13 pen.old pen.new }
{
    pen.put_big(later, 2);
    pen.put(version);
    pen.put_word(&bytes[reader::STATES_AT..reader::HEADER]);
}

// The weights of so many states: all of it on the first, none on the others. A plain number of states asks for its bound.
fn put_weights(pen: &mut Pen, states: usize)
    requires { (1 ≤ states) × (states ≤ 64) × (pen.old.at + 4 * states ≤ length pen.old.out.now) }
    ensures { Puts (bytes_of 4 1000000 ++ replicate (4 * (states - 1)) 0) (4 * states) pen.old pen.new }
{
    pen.put_big(ALL_WEIGHT, 4);
    pen.put_zeros(4 * (states - 1));
}

// A version 1 file in version 2: with all weight on state 1, and the rest as the file has it.
fn put_version_2(file: &ModelFile, out: &mut [u8]) -> usize
    requires file_value { file_judgement 1 1 file.now ≡ accepted tt }
    requires file_in_bounds { length file.now + 4 * state_count file.now ≤ length out.old }
    ensures { Printed (moved_to_2 file.now) out.old out.new result }
{
    let bytes = file.bytes();
    let states = file.head.state_count();
    let later = file.head.length_field() + 4 * states as u64;
    let mut pen = Pen { out, at: 0 };
    put_header(&mut pen, bytes, later, 2);
    put_weights(&mut pen, states);
    pen.put_word(&bytes[reader::HEADER..]);
    pen.at
}

// A version 2 file in version 1: without its weights, and the rest as the file has it.
fn put_version_1(file: &ModelFile, out: &mut [u8]) -> usize
    requires file_value { file_judgement 2 2 file.now ≡ accepted tt }
    requires file_in_bounds { length file.now ≤ length out.old + 4 * state_count file.now }
    ensures { Printed (moved_to_1 file.now) out.old out.new result }
{
    let bytes = file.bytes();
    let states = file.head.state_count();
    let later = file.head.length_field() - 4 * states as u64;
    let mut pen = Pen { out, at: 0 };
    put_header(&mut pen, bytes, later, 1);
    pen.put_word(&bytes[reader::HEADER + 4 * states..]);
    pen.at
}

// The file, which is to be of version 1, in version 2: the count of its bytes, or the first row that holds. Moved
// back, it is the file again.
pub fn to_version_2(file: &[u8], out: &mut [u8]) -> Result<usize, Refusal>
    ensures answer { answer_of result ≡ count_of (to_version_2 file.now (length out.old)) }
    ensures bytes { out.new ≡ bytes_after (to_version_2 file.now (length out.old)) out.old }
    ensures moved { ThereAndBack (to_version_2 file.now (length out.old)) file.now to_version_1 }
{
    let model = refusals::judge_file(file, 1, 1)?;
    if out.len() < file.len() + 4 * model.head.state_count() {
        return Err(Refusal::Room);
    }
    Ok(put_version_2(&model, out))
}

// The file, which is to be of version 2 with all weight on state 1, in version 1: the count of its bytes, or the
// first row that holds. Moved back, it is the file again.
pub fn to_version_1(file: &[u8], out: &mut [u8]) -> Result<usize, Refusal>
    ensures answer { answer_of result ≡ count_of (to_version_1 file.now (length out.old)) }
    ensures bytes { out.new ≡ bytes_after (to_version_1 file.now (length out.old)) out.old }
    ensures moved { ThereAndBack (to_version_1 file.now (length out.old)) file.now to_version_2 }
{
    let model = refusals::judge_file(file, 2, 2)?;
    if weight_elsewhere(&model) {
        return Err(Refusal::WeightElsewhere);
    }
    if out.len() < file.len() - 4 * model.head.state_count() {
        return Err(Refusal::Room);
    }
    Ok(put_version_1(&model, out))
}
