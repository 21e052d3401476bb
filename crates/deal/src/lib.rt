// A practice file from three texts, those of M, R and a seed number: what the program answers its arguments.
#![tactic(auto)]

ghost use Rattle.std.specs.Prelude.{◌≡◌};
ghost use Rattle.definitions.specs.Dealing.{dimension_in, DealtFrom};

use definitions::NotDealt;

// The last seed number.
const LAST_SEED: u64 = u32::MAX as u64;

// What a text says of M or R: a number of 64 bits, or 0 where it says none.
fn dimension(text: &[u8]) -> u64
    ensures { result ≡ dimension_in text.now }
{
    numerals::number_of(text, u64::MAX).unwrap_or(0)
}

// Deals the practice file of the M, R and seed number that three texts say: the count of its bytes, which stand at the
// start of what is lent; or the first row that holds, or that there is no seed number, and nothing is written. Rows 4
// and 5 come first, then the seed number, then row 13.
pub fn deal(states: &[u8], highest: &[u8], seed: &[u8], out: &mut [u8]) -> Result<usize, NotDealt>
    ensures { DealtFrom states.now highest.now seed.now result out.old out.new }
{
    let m = dimension(states);
    let r = dimension(highest);
    let Some(n) = numerals::number_of(seed, LAST_SEED) else {
        refusals::judge_dimensions(m, r)?;
        return Err(NotDealt::NoSeed);
    };
    practice::practice(m, r, n as u32, out).map_err(NotDealt::Refused)
}
