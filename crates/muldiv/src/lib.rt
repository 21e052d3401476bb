// Quotient and remainder of a * b by c, where a * b may pass 64 bits.
//
// Nothing here is wider than a u64, and the product is never formed. For any c, a loop goes through the bits of
// b from the highest down, doubles what it has at each, adds a where the bit is set, and takes c out. So that
// its quotient stays at most b, a is first split into (a / c) * c + a % c, and only a % c goes that way. For
// c = 10^12 and limited factors, `over_trillion` takes the product in parts.
#![tactic(auto)]

ghost use Rattle.std.specs.Prelude.{◌≡◌, ◌+◌, ◌*◌, ◌/◌, ◌%◌, ◌^◌, ◌<◌, ◌≤◌};
ghost use Rattle.definitions.specs.Division.{division};
ghost use Rattle.muldiv.specs.MulDiv.{divided_of, fitted, Scalable, BitCount};

use definitions::Division;

// Each of a, b and c stays below this.
const LIMIT: u64 = 1 << 62;

// 10^6, the root of 10^12.
const MILLION: u64 = 1_000_000;

// a * b by c. None where c is 0, where a, b or c is 2^62 or more, or where the quotient is 2^64
// or more, and nowhere else. There is one turn for each bit of b: hand over the smaller factor as b.
pub fn mul_div(a: u64, b: u64, c: u64) -> Option<Division>
    ensures { result ≡ divided_of a b c }
{
    if c == 0 {
        return None;
    }
    if a >= LIMIT || b >= LIMIT || c >= LIMIT {
        return None;
    }
    let low = divide_by_bits(a % c, b, c);
    total(a / c, b, low)
}

// The same, for a caller who knows that there is a quotient.
pub fn scaled(a: u64, b: u64, c: u64) -> Division
    requires { Scalable a b c }
    ensures { result ≡ division (a * b) c }
{
    mul_div(a, b, c).unwrap()
}

// n by c, for an n of 64 bits.
pub fn divide(n: u64, c: u64) -> Division
    requires { 0 < c }
    ensures { result ≡ division n c }
{
    Division {
        quotient: n / c,
        remainder: n % c,
    }
}

// a * b by 10^12, in parts: quicker than the loop over the bits of b, for a caller who has many such products.
// Both factors are cut at 10^6, a = a1 * 10^6 + a0 and b = b1 * 10^6 + b0, so that their product is
//
//     a1 * b1 * 10^12 + (a1 * b0 + a0 * b1) * 10^6 + a0 * b0
//
// No number passes 64 bits, and every divisor is a constant.
pub fn over_trillion(a: u64, b: u64) -> Division
    requires { (a ≤ 10 ^ 15) × (b ≤ 10 ^ 12) }
    ensures { result ≡ division (a * b) (10 ^ 12) }
{
    let a1 = a / MILLION;
    let a0 = a % MILLION;
    let b1 = b / MILLION;
    let b0 = b % MILLION;
    let low = a0 * b0;
    let carry = low / MILLION;
    let middle = a1 * b0 + a0 * b1 + carry;
    Division {
        quotient: a1 * b1 + middle / MILLION,
        remainder: middle % MILLION * MILLION + low % MILLION,
    }
}

// low with high * b added to its quotient; None where that quotient is 2^64 or more.
fn total(high: u64, b: u64, low: Division) -> Option<Division>
    ensures { result ≡ fitted (high * b + low.quotient) low.remainder }
{
    let quotient = high.checked_mul(b)?.checked_add(low.quotient)?;
    Some(Division {
        quotient,
        remainder: low.remainder,
    })
}

// a * b by c, for a below c. After each bit of b the two numbers are quotient and remainder, by c, of
// a times the bits so far (`Walked` in specs/). For 6 * 5 by 7, where 5 has the bits 1, 0 and 1:
//
//     bit 1: sum  6, quotient 0, remainder 6
//     bit 0: sum 12, quotient 1, remainder 5
//     bit 1: sum 16, quotient 4, remainder 2      and 30 is 4 * 7 + 2
fn divide_by_bits(a: u64, b: u64, c: u64) -> Division
    requires { (a < c) × (b < 2 ^ 62) × (c < 2 ^ 62) }
    ensures { result ≡ division (a * b) c }
{
    let mut quotient = 0;
    let mut remainder = 0;
    for k in (0..bit_count(b)).rev() {
        let next = divide_by_few(2 * remainder + a * bit(b, k), c);
        quotient = 2 * quotient + next.quotient;
        remainder = next.remainder;
    }
    Division {
        quotient,
        remainder,
    }
}

// How many bits b has, from its highest set one down.
fn bit_count(b: u64) -> u32
    ensures { BitCount b result }
{
    64 - b.leading_zeros()
}

// Bit k of b: 1 where it is set, else 0. The lowest is bit 0.
fn bit(b: u64, k: u32) -> u64
    requires { k < 64 }
    ensures { result ≡ b / 2 ^ k % 2 }
{
    (b >> k) % 2
}

// sum by c, for a sum below 3 * c. Comparisons are quicker than a division.
fn divide_by_few(sum: u64, c: u64) -> Division
    requires { (sum < 3 * c) × (c < 2 ^ 62) }
    ensures { result ≡ division sum c }
{
    if sum < c {
        Division {
            quotient: 0,
            remainder: sum,
        }
    } else if sum < 2 * c {
        Division {
            quotient: 1,
            remainder: sum - c,
        }
    } else {
        Division {
            quotient: 2,
            remainder: sum - 2 * c,
        }
    }
}
