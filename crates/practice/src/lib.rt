// Practice files from a seed number (document 02, S-6).
//
// The same M, R and seed number deal the same file. It is written at the start of what is lent, and a refusal
// writes nothing.
#![tactic(auto)]

ghost use Rattle.std.specs.Prelude.{◌≡◌, ◌+◌, ◌*◌, ◌%◌, ◌^◌, ◌≤◌, length};
ghost use Rattle.definitions.specs.Sums.{firsts};
ghost use Rattle.definitions.specs.Fields.{words_of};
ghost use Rattle.definitions.specs.Rules.{answer_of};
ghost use Rattle.definitions.specs.Written.{count_of, bytes_after};
ghost use Rattle.definitions.specs.Practice.{next, upper, draw, practice_file, practice, DealtWell};
ghost use Rattle.writing.specs.Puts.{Puts};
ghost use Rattle.writing.specs.Printed.{Printed};

use definitions::{Header, Refusal};
use writing::Pen;

// The stream: next = previous × MULTIPLIER + INCREMENT, cut to 32 bits.

const MULTIPLIER: u32 = 1_664_525;

const INCREMENT: u32 = 1_013_904_223;

// 2^32.
const WRAP: u64 = 4_294_967_296;

// The tolerance, in billionths.
const TOLERANCE: u32 = 10_000;

// a × b, cut to 32 bits: the program's own multiply, as S-6 asks for it, beside std's wrapping add.
fn wrapping_mul(a: u32, b: u32) -> u32
    ensures { result ≡ a * b % 2 ^ 32 }
{
    (u64::from(a) * u64::from(b) % WRAP) as u32
}

// The stream's number after `previous`.
#[tactic(auto, using(crate::specs::Steps::next_in_parts))]
fn next(previous: u32) -> u32
    ensures { result ≡ next previous }
{
    wrapping_mul(previous, MULTIPLIER).wrapping_add(INCREMENT)
}

// A draw: the upper 16 bits of a number of the stream.
#[tactic(auto, unfolding(definitions::specs::Practice::upper))]
fn upper(number: u32) -> u32
    ensures { result ≡ upper number }
{
    number >> 16
}

// The stream, at a number of it.
#[derive(Clone, Copy)]
struct Stream {
    number: u32,
}

impl Stream {
    // A step, and the draw that it gives.
    fn draw(&mut self) -> u32
        ensures step { self.new.number ≡ next self.old.number }
        ensures drawn { result ≡ upper (next self.old.number) }
    {
        self.number = next(self.number);
        upper(self.number)
    }
}

// So many draws, those after a number of the stream, 4 bytes each.
fn put_draws(pen: &mut Pen, from: Stream, count: usize)
    requires { pen.old.at + 4 * count ≤ length pen.old.out.now }
    ensures { Puts (words_of (firsts count (draw from.number))) (4 * count) pen.old pen.new }
{
    let mut stream = from;
    for _ in 0..count {
        pen.put_big(u64::from(stream.draw()), 4);
    }
}

// The practice file of so many states: the first draw is for the time, the second for the first reward, and the
// later ones for the other rewards and the rates, in the order of the file.
fn put_file(out: &mut [u8], states: u8, highest: u8, seed: u32) -> usize
    requires { (1 ≤ states) × (states ≤ 64) × (4 * (states * states) + 13 ≤ length out.old) }
    ensures { Printed (practice_file states highest seed) out.old out.new result }
{
    let mut stream = Stream { number: seed };
    let header = Header {
        version: 1,
        states,
        highest,
        tolerance: TOLERANCE,
        time: 1 + stream.draw() / 4096,
    };
    let first_reward = u64::from(stream.draw()) + 1;
    let numbers = states as usize * states as usize;
    let mut pen = Pen { out, at: 0 };
    pen.put_header(header, numbers);
    pen.put_big(first_reward, 4);
    put_draws(&mut pen, stream, numbers - 1);
    pen.at
}

// Deals the practice file of M = states, R = highest and a seed number: the count of its bytes, or the first row that
// holds. Where version 1 is admitted, rows 1 to 12 and 16 stop no file dealt at its own time, and with M × R cells it
// has figures. The three stay plain numbers, as C gives them.
pub fn practice(states: u64, highest: u64, seed: u32, out: &mut [u8]) -> Result<usize, Refusal>
    ensures answer { answer_of result ≡ count_of (practice states highest seed (length out.old)) }
    ensures bytes { out.new ≡ bytes_after (practice states highest seed (length out.old)) out.old }
    ensures dealt { DealtWell (practice states highest seed (length out.old)) states highest seed }
{
    refusals::judge_dimensions(states, highest)?;
    if (out.len() as u64) < 4 * states * states + 13 {
        return Err(Refusal::Room);
    }
    Ok(put_file(out, states as u8, highest as u8, seed))
}
