// The printed sheet, as bytes in a lent buffer.
//
// The contract of each function that is given a pen names the text that it puts and how long it may be.
#![tactic(auto)]

ghost use Rattle.std.specs.Prelude.{◌≡◌, [], ◌∷◌, ◌++◌, ◌+◌, ◌*◌, ◌^◌, ◌<◌, ◌≤◌, length};
ghost use Rattle.definitions.specs.Sheet.{digit, digits, places, decimal, figure, label, figure_lines, word_line};
ghost use Rattle.writing.specs.Puts.{Puts};
ghost use Rattle.writing.specs.Printed.{Printed};
ghost use Rattle.sheet.specs.Line.{line, line_width};
ghost use Rattle.sheet.specs.Shown.{sheet_shown};

mod solved;

pub use solved::Solved;
use writing::Pen;

// The bytes of a buffer that has room for every sheet.
pub const ROOM: usize = 16384;

// The powers of ten that 64 bits hold. Each decimal is taken from this table.
const POWERS: [u64; 20] = [
    1,
    10,
    100,
    1_000,
    10_000,
    100_000,
    1_000_000,
    10_000_000,
    100_000_000,
    1_000_000_000,
    10_000_000_000,
    100_000_000_000,
    1_000_000_000_000,
    10_000_000_000_000,
    100_000_000_000_000,
    1_000_000_000_000_000,
    10_000_000_000_000_000,
    100_000_000_000_000_000,
    1_000_000_000_000_000_000,
    10_000_000_000_000_000_000,
];

// 10 to the p.
fn power(p: usize) -> u64
    requires { p < 20 }
    ensures { result ≡ 10 ^ p }
{
    POWERS[p]
}

// The byte of the decimal digit of x that counts 10 to the p.
#[tactic(auto, using(definitions::specs::Sheet::ten_pos), unfolding(definitions::specs::Sheet::digit))]
fn digit_at(x: u64, p: usize) -> u8
    requires { p < 20 }
    ensures { result ≡ digit x p }
{
    b'0' + (x / power(p) % 10) as u8
}

// The last p decimal digits of x, the highest first.
fn put_digits(pen: &mut Pen, x: u64, p: usize)
    requires { (p ≤ 20) × (pen.old.at + p ≤ length pen.old.out.now) }
    ensures { Puts (digits x p) p pen.old pen.new }
{
    for place in (0..p).rev() {
        pen.put(digit_at(x, place));
    }
}

// How many digits x has in decimal: one more than the highest power of ten that is not above it.
#[tactic(auto, using(crate::specs::TextLaws::places_none, crate::specs::TextLaws::places_here, crate::specs::TextLaws::places_below))]
fn places_of(x: u64) -> usize
    ensures { result ≡ places x 19 }
{
    for p in (1..20).rev() {
        if x >= power(p) {
            return p + 1;
        }
    }
    1
}

// x in decimal, and the byte after it.
fn put_number(pen: &mut Pen, x: u64, end: u8)
    requires { pen.old.at + places x 19 + 1 ≤ length pen.old.out.now }
    ensures { Puts (decimal x ++ end ∷ []) (places x 19 + 1) pen.old pen.new }
{
    put_digits(pen, x, places_of(x));
    pen.put(end);
}

// A figure of x ticks: a digit, a point and twelve digits.
fn put_figure(pen: &mut Pen, x: u64)
    requires { pen.old.at + 14 ≤ length pen.old.out.now }
    ensures { Puts (figure x) 14 pen.old pen.new }
{
    pen.put(digit_at(x, 12));
    pen.put(b'.');
    put_digits(pen, x, 12);
}

// How the lines of row i begin: the state's number, or past the last state "start". A space follows. M is a plain number,
// as in Solved: its bound is asked here and below.
fn put_label(pen: &mut Pen, states: usize, i: usize)
    requires { (states ≤ 64) × (pen.old.at + 6 ≤ length pen.old.out.now) }
    ensures { Puts (label states i ++ 32 ∷ []) 6 pen.old pen.new }
{
    if i < states {
        put_number(pen, i as u64 + 1, b' ');
    } else {
        pen.put_word(b"start ");
    }
}

// One line, of row i: its label, its r and its ticks.
fn put_line(pen: &mut Pen, states: usize, i: usize, r: u64, ticks: u64)
    requires { (states ≤ 64) × (pen.old.at + line_width r ≤ length pen.old.out.now) }
    ensures { Puts (line states i r ticks) (line_width r) pen.old pen.new }
{
    put_label(pen, states, i);
    put_number(pen, r, b' ');
    put_figure(pen, ticks);
    pen.put(b'\n');
}

// The line of every cell, of at most 23 bytes each.
fn put_lines(pen: &mut Pen, solved: &Solved)
    requires { pen.old.at + length solved.now.cells.now * 23 ≤ length pen.old.out.now }
    ensures { Puts (figure_lines solved.now.states solved.now.highest (length solved.now.cells.now) solved.now.cells.now) (length solved.now.cells.now * 23) pen.old pen.new }
{
    // By number: `chunks` of R cells would ask for an R above 0.
    for (k, &ticks) in solved.cells.iter().enumerate() {
        let r = (k % solved.highest + 1) as u64;
        put_line(pen, solved.states, k / solved.highest, r, ticks);
    }
}

// A word, a number and the line's end.
fn put_word_line(pen: &mut Pen, word: &[u8], n: u64)
    requires { pen.old.at + (length word.now + (places n 19 + 1)) ≤ length pen.old.out.now }
    ensures { Puts (word_line word.now n) (length word.now + (places n 19 + 1)) pen.old pen.new }
{
    pen.put_word(word);
    put_number(pen, n, b'\n');
}

// Writes the sheet of a run, or of the number of a refusal, at the buffer's start and returns its length. Later bytes stay
// as they were. The number is any, and so it is no `Refusal`.
pub fn write_sheet(outcome: Result<Solved, u8>, out: &mut [u8; ROOM]) -> usize
    ensures { Printed (sheet_shown outcome.entry) out.old out.new result }
{
    let mut pen = Pen { out, at: 0 };
    match outcome {
        Ok(solved) => {
            put_word_line(&mut pen, b"level ", solved.run.level);
            put_lines(&mut pen, &solved);
        }
        Err(row) => put_word_line(&mut pen, b"refused ", u64::from(row)),
    }
    pen.at
}
