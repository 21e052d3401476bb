// The answers, sizes and headers that the calculator's functions share. The papers' answer for each case of a Result is defined in specs/Rules.antt
// (`answer_of`), that of a call which deals a practice file in Dealing.antt. The chain that stands in arrays of given Sizes is defined in Chain.antt.
#![tactic(auto)]

ghost use Rattle.std.specs.Prelude.{◌≡◌};
ghost use Rattle.definitions.specs.Refusal.{row_of};
ghost use Rattle.definitions.specs.declared.NotDealt.TheVariants.{Refused};

// ONE: 10^12 ticks.
pub const ONE: u64 = 1_000_000_000_000;

// The weights of a starting distribution sum to this: all weight, in millionths.
pub const ALL_WEIGHT: u64 = 1_000_000;

// A list has at most this many times.
pub const MOST_TIMES: usize = 8;

// Why a call refuses: the row of its table of refusals that stops it, under the number that the papers give it.
#[derive(Clone, Copy, Debug, PartialEq, Eq)]
pub enum Refusal {
    // Fewer than 13 bytes.
    TooShort = 1,
    // The length field is not the count of the bytes after it.
    LengthField = 2,
    // A version that the call does not admit.
    Version = 3,
    // M is not from 1 to 64.
    States = 4,
    // R is not from 1 to 8.
    HighestMoment = 5,
    // The length is not that of a file with so many states; or the log is no whole number of stays.
    Size = 6,
    // The tolerance is 0 or too large.
    Tolerance = 7,
    // The time is 0, or a list of times starts with 0.
    Time = 8,
    // A reward rate is above 1,000,000.
    RewardTooLarge = 9,
    // All reward rates are 0.
    NoReward = 10,
    // A row of rates sums to more than 10,000,000.
    RatesTooLarge = 11,
    // E × T is above 256,000,000.
    TooManyJumps = 12,
    // Too few cells or bytes are lent.
    Room = 13,
    // A list of times is empty, or has more than 8.
    TimesCount = 14,
    // A time is not above the one before it.
    TimesOrder = 15,
    // The starting weights do not sum to 1,000,000.
    StartWeights = 16,
    // A state other than the first has a starting weight.
    WeightElsewhere = 17,
    // A state of a stay is outside 1 to M, or both are the same.
    Pair = 20,
    // The hours of a stay are not from 1 to 10,000.
    Hours = 21,
    // A window size is not from 1 to 256.
    Window = 22,
}

impl Refusal {
    // The number of its row.
    pub fn row(self) -> u8
        ensures { result ≡ row_of self }
    {
        self as u8
    }
}

// Why no practice file is dealt from three texts: the refusal, or that the third text says no seed number.
#[derive(Clone, Copy, Debug, PartialEq, Eq)]
pub enum NotDealt {
    Refused(Refusal),
    NoSeed,
}

impl From<Refusal> for NotDealt {
    ghost from_gives = { λ r e. e ≡ Refused r };

    fn from(refusal: Refusal) -> NotDealt {
        NotDealt::Refused(refusal)
    }
}

// What the run of a file has besides its block: the truncation level N, and the number of row means that it took.
#[derive(Clone, Copy)]
pub struct Run {
    pub level: u64,
    pub means: u64,
}

// Quotient and remainder of a division.
#[derive(Clone, Copy)]
pub struct Division {
    pub quotient: u64,
    pub remainder: u64,
}

// What the three divisions of U(n,r) at a state leave: the remainders of V, the row mean, of W, the reward share, and of U,
// their mix.
#[derive(Clone, Copy)]
pub struct Rests {
    pub mean: u64,
    pub share: u64,
    pub mix: u64,
}

// The numbers of a chain that stands in arrays: M, the number of states; R, the highest moment; the cells of a block; E, the
// uniformization rate; F, the largest reward rate.
#[derive(Clone, Copy)]
pub struct Sizes {
    pub states: usize,
    pub highest: usize,
    pub block: usize,
    pub rate: u64,
    pub largest: u64,
}

// A file's header but for its length: version, M, R, tolerance in billionths and time in hours.
#[derive(Clone, Copy)]
pub struct Header {
    pub version: u8,
    pub states: u8,
    pub highest: u8,
    pub tolerance: u32,
    pub time: u32,
}
