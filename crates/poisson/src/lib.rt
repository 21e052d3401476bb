// The Poisson weights of an expected jump count q of x millionths, and the level at which their sum
// is cut off: document 01, "Weights" and "Level".
//
// m is q rounded down. Weights are whole numbers in units of 10^-15: w(m) is 10^15, and each step
// away from m is one multiplication and one division, rounded down.
#![tactic(auto)]

ghost use Rattle.std.specs.Prelude.{◌≡◌, ◌+◌, ◌-◌, ◌*◌, ◌/◌, ◌%◌, ◌^◌, ◌≤◌, ◌<◌, length};
ghost use Rattle.definitions.specs.Sums.{over};
ghost use Rattle.definitions.specs.Division.{Divides};
ghost use Rattle.definitions.specs.Weights.{MILLION, mode, weight, weight_sum};
ghost use Rattle.definitions.specs.Level.{BILLION, tail_bound, passes?};
ghost use Rattle.laws.specs.LevelLaws.{LEVELS};
ghost use Rattle.poisson.specs.Stages.{Truncated};

// One jump in millionths.
const MILLION: u64 = 1_000_000;

// w(m).
const GREATEST: u64 = 1_000_000_000_000_000;

// The unit of the tolerance.
const BILLION: u64 = 1_000_000_000;

// Levels 0 to 563: x is at most 256,000,000, so m is at most 256, and no level is above 2m + 51.
pub const LEVELS: usize = 564;

// Where the sum over n is cut off: the level N, and S(N).
#[derive(Drop)]
pub struct Truncation {
    pub level: u64,
    pub sum: u64,
}

// A number n of jumps and its weight w(n), where x millionths of a jump are expected.
#[derive(Clone, Copy)]
struct Jumps {
    x: u64,
    n: u64,
    w: u64,
    ghost weighed: { w ≡ weight x n },
    ghost limited: { x ≤ 256000000 },
}

// The level N, which is the least n that passes, and S(N). w(0) to w(N) are written into what is lent;
// the entries past N stay. Left of m all weights are needed; right of it, each is computed when the
// search comes to it. No n below m passes, and 2m + 51 does: the search is from m to there at most.
pub fn truncate(x: u64, tolerance: u64, weights: &mut [u64]) -> Truncation
    requires { (x ≤ 256000000) × (1 ≤ tolerance) × (tolerance ≤ 100000000) × (LEVELS ≤ length weights.old) }
    ensures { Truncated x tolerance result.level result.sum weights.old weights.new }
{
    let mut sum = leftward(x, weights);
    let mut at = Jumps::most_likely(x);
    // A range would count beside `at` what `at` counts.
    loop {
        if at.passes(sum, tolerance) {
            return Truncation { level: at.n, sum };
        }
        let next = at.step_right();
        weights[next.n as usize] = next.w;
        sum += next.w;
        at = next;
    }
}

// Writes w(0) to w(m), from m down to 0, and returns S(m). The caller's x is a plain number, and asks for its bound.
fn leftward(x: u64, weights: &mut [u64]) -> u64
    requires { (x ≤ 256000000) × (mode x < length weights.old) }
    ensures { (result ≡ weight_sum x (mode x)) × (weights.new ≡ over (mode x + 1) (weight x) weights.old) }
{
    let mut at = Jumps::most_likely(x);
    let m = at.n as usize;
    let mut sum = at.w;
    weights[m] = at.w;
    for n in (0..m).rev() {
        at = at.step_left();
        weights[n] = at.w;
        sum += at.w;
    }
    sum
}

// m: q rounded down.
#[tactic(auto, unfolding(definitions::specs::Weights::mode))]
fn mode_of(x: u64) -> u64
    ensures { result ≡ mode x }
{
    x / MILLION
}

// The most that t may be, given S(n): S(n) * tolerance by 10^9. The remainder is dropped. The tolerance is a plain number of the
// caller's, so what multiplies by it asks for its bound.
fn allowance(sum: u64, tolerance: u64) -> u64
    requires { (sum < 2 ^ 62) × (tolerance ≤ 100000000) }
    ensures { (result ≡ sum * tolerance / BILLION) × Divides (sum * tolerance) BILLION result (sum * tolerance % BILLION) }
{
    let allowed = muldiv::scaled(sum, tolerance, BILLION);
    allowed.quotient
}

impl Jumps {
    // m, where the weights start.
    fn most_likely(x: u64) -> Jumps
        requires { x ≤ 256000000 }
        ensures { (result.x ≡ x) × (result.n ≡ mode x) }
    {
        Jumps {
            x,
            n: mode_of(x),
            w: GREATEST,
        }
    }

    // n + 1, for n from m on. The remainder of w(n) * X by (n + 1) * 1,000,000 is dropped.
    fn step_right(self) -> Jumps
        requires { (mode self.x ≤ self.n) × (self.n + 1 < LEVELS) }
        ensures { (result.x ≡ self.x) × (result.n ≡ self.n + 1) × Divides (self.w * self.x) ((self.n + 1) * MILLION) result.w (self.w * self.x % ((self.n + 1) * MILLION)) }
    {
        let n = self.n + 1;
        let next = muldiv::scaled(self.w, self.x, n * MILLION);
        Jumps {
            x: self.x,
            n,
            w: next.quotient,
        }
    }

    // n - 1, for n up to m. The remainder of w(n) * n * 1,000,000 by X is dropped.
    fn step_left(self) -> Jumps
        requires { (1 ≤ self.n) × (self.n ≤ mode self.x) }
        ensures { (result.x ≡ self.x) × (result.n ≡ self.n - 1) × Divides (self.w * self.n * MILLION) self.x result.w (self.w * self.n * MILLION % self.x) }
    {
        let before = muldiv::scaled(self.w, self.n * MILLION, self.x);
        Jumps {
            x: self.x,
            n: self.n - 1,
            w: before.quotient,
        }
    }

    // t, the bound on the weights past n, for n not below q. The remainder of (w(n) + n - m) * X by
    // (n + 1) * 1,000,000 - X is dropped. Below q that divisor could be 0.
    fn tail_bound(self) -> u64
        requires { (self.x ≤ self.n * MILLION) × (self.n < LEVELS) }
        ensures { (result ≡ tail_bound self.x self.n) × Divides ((self.w + self.n - mode self.x) * self.x) ((self.n + 1) * MILLION - self.x) (result - 1) ((self.w + self.n - mode self.x) * self.x % ((self.n + 1) * MILLION - self.x)) }
    {
        let m = mode_of(self.x);
        let past = muldiv::scaled(self.w + self.n - m, self.x, (self.n + 1) * MILLION - self.x);
        1 + past.quotient
    }

    // Whether n passes, given S(n): n jumps are at least q, and t is at most what S(n) and the tolerance allow.
    fn passes(self, sum: u64, tolerance: u64) -> bool
        requires { (sum ≡ weight_sum self.x self.n) × (self.n < LEVELS) × (tolerance ≤ 100000000) }
        ensures { result ≡ passes? self.x tolerance self.n }
    {
        if self.n * MILLION < self.x {
            return false;
        }
        let t = self.tail_bound();
        t <= allowance(sum, tolerance)
    }
}
