// The reader of a model file: the model that it states.
//
// Document 01 counts bytes from 0 and numbers are big-endian. A `Head` is a file that has the header's 13
// bytes, and hands out its fields. A `ModelFile` is framed (`Framed` in the crate laws): M is 1 to 64, and
// the file is as long as M and its version say. What stops a file is judged in the crate refusals.
#![tactic(auto)]

ghost use Rattle.std.specs.Prelude.{◌≡◌, ℕ, List, ◌↔◌, ◌+◌, ◌-◌, ◌*◌, ◌≤◌, ◌<◌, ◌^◌, eqb, length, drop, IfSome, IsNone};
ghost use Rattle.definitions.specs.Sums.{sum, largest, pick};
ghost use Rattle.definitions.specs.Bytes.{big};
ghost use Rattle.definitions.specs.File.{length_field, version, state_count, highest_moment, tolerance_field, time_field, distributions, weight_field, rewards_at, reward_field, row_at, place};
ghost use Rattle.definitions.specs.Chain.{model_of, row_sum, uniform_rate, max_reward, padded, sizes_of};
ghost use Rattle.definitions.specs.Rules.{block_size};
ghost use Rattle.laws.specs.Acceptance.{Framed};
ghost use Rattle.laws.specs.ArrayLaws.{entry_of};

use definitions::Sizes;
use std::marker::Model;

// 1. Where the file's numbers stand. No offset is written anywhere else.

const LENGTH_AT: usize = 0;

const VERSION_AT: usize = 2;

pub const STATES_AT: usize = 3;

const HIGHEST_AT: usize = 4;

const TOLERANCE_AT: usize = 5;

const TIME_AT: usize = 9;

// The header's bytes. Starting weights, where there are some, follow it.
pub const HEADER: usize = 13;

const WEIGHTS_AT: usize = HEADER;

// 2. Numbers in a slice.

// The big-endian number of width bytes.
fn be(bytes: &[u8], at: usize, width: usize) -> u64
    requires { (at + width ≤ length bytes.now) × (width ≤ 4) }
    ensures { (result ≡ big width bytes.now at) × (result < 2 ^ 32) }
{
    let mut value = 0;
    for &byte in &bytes[at..at + width] {
        value = value * 256 + u64::from(byte);
    }
    value
}

// The largest of some values, and 0 of none.
fn largest(values: &[u64]) -> u64
    ensures { result ≡ largest (length values.now) (entry_of values.now) }
{
    values.iter().copied().max().unwrap_or(0)
}

// 3. The header's fields.

// A file that is long enough to hold the header. A clause sees its bytes.
#[derive(Drop)]
pub struct Head<'a> {
    pub bytes: &'a [u8],
}

impl<'a> Model for Head<'a> {
    ghost Value = { List ℕ };

    ghost view = { λ head. head.bytes.now };

    ghost invariant = { λ head. 13 ≤ length head.bytes.now };
}

impl<'a> Head<'a> {
    // The header of a file, or none where the file is shorter than 13 bytes.
    pub fn new(bytes: &'a [u8]) -> Option<Self>
        ensures none { IsNone result ↔ (length bytes.now < 13) }
        ensures some { IfSome result (λ head. head ≡ bytes.now) }
    {
        if bytes.len() < HEADER {
            return None;
        }
        Some(Head { bytes })
    }

    // The length field: the count of all bytes after it.
    pub fn length_field(&self) -> u64
        ensures { result ≡ length_field self.now }
    {
        be(self.bytes, LENGTH_AT, 2)
    }

    // The version.
    pub fn version(&self) -> u64
        ensures { result ≡ version self.now }
    {
        u64::from(self.bytes[VERSION_AT])
    }

    // M, the number of states.
    pub fn state_count(&self) -> usize
        ensures { result ≡ state_count self.now }
    {
        usize::from(self.bytes[STATES_AT])
    }

    // R, the highest moment.
    pub fn highest_moment(&self) -> usize
        ensures { result ≡ highest_moment self.now }
    {
        usize::from(self.bytes[HIGHEST_AT])
    }

    // ε, the tolerance in billionths.
    pub fn tolerance(&self) -> u64
        ensures { result ≡ tolerance_field self.now }
    {
        be(self.bytes, TOLERANCE_AT, 4)
    }

    // T, the time in whole hours.
    pub fn time(&self) -> u32
        ensures { result ≡ time_field self.now }
    {
        be(self.bytes, TIME_AT, 4) as u32
    }

    // How many starting distributions the file holds: one in version 2, none in version 1.
    pub fn distributions(&self) -> usize
        ensures { result ≡ distributions self.now }
    {
        if self.version() == 2 { 1 } else { 0 }
    }
}

// 4. A framed file: its starting weights, its rewards and its rows of rates.

// Entry j of row i. The row in the file leaves the diagonal out: the caller says what stands there.
pub fn entry_in(row: &[u8], i: usize, j: usize, diagonal: u64) -> u64
    requires { (j ≡ i → ⊥) → 4 * place i j + 4 ≤ length row.now }
    ensures { (result ≡ pick (eqb j i) diagonal (big 4 row.now (4 * place i j))) × (diagonal < 2 ^ 32 → result < 2 ^ 32) }
{
    if j == i {
        return diagonal;
    }
    if j < i {
        return be(row, 4 * j, 4);
    }
    be(row, 4 * (j - 1), 4)
}

// f at each state, for 64 states: 0 past them. An array for the most states, since library code has no heap.
fn for_states<F: Fn(usize) -> u64>(states: usize, f: F) -> [u64; 64]
    requires few { states ≤ 64 }
    requires pre { (i : ℕ) → i < states → F.pre f i }
    ensures { (v : ℕ → ℕ) → ((i x : ℕ) → i < states → F.post f i x → x ≡ v i) → result ≡ padded states v }
{
    let mut values = [0; 64];
    for (i, value) in values[..states].iter_mut().enumerate() {
        *value = f(i);
    }
    values
}

// A framed file. A clause sees its bytes.
#[derive(Drop)]
pub struct ModelFile<'a> {
    pub head: Head<'a>,
}

impl<'a> Model for ModelFile<'a> {
    ghost Value = { List ℕ };

    ghost view = { λ file. file.head };

    ghost invariant = { λ file. Framed file.head };
}

impl<'a> ModelFile<'a> {
    // All bytes of the file.
    pub fn bytes(&self) -> &'a [u8]
        ensures same { result.now ≡ self.now }
        ensures framed { Framed self.now }
    {
        self.head.bytes
    }

    // The cells of one block: one for each r of each state, and one for each r of the starting distribution. A framed file may
    // name any R: who multiplies by it asks for its bound.
    pub fn block_size(&self) -> usize
        requires { highest_moment self.now ≤ 8 }
        ensures value { result ≡ block_size self.now }
        ensures most { result ≤ 520 }
    {
        let rows = self.head.state_count() + self.head.distributions();
        rows * self.head.highest_moment()
    }

    // Where the reward rates start: after M weights for each starting distribution.
    fn rewards_at(&self) -> usize
        ensures value { result ≡ rewards_at self.now }
        ensures most { result ≤ 269 }
    {
        let weights = self.head.distributions() * self.head.state_count();
        WEIGHTS_AT + 4 * weights
    }

    // M numbers of 4 bytes each from a place on, for 64 states: 0 past M.
    fn numbers_at(&self, at: usize) -> [u64; 64]
        requires { at + 4 * state_count self.now ≤ length self.now }
        ensures { result ≡ padded (state_count self.now) (λ i. big 4 self.now (at + 4 * i)) }
    {
        let bytes = self.bytes();
        for_states(self.head.state_count(), |i| be(bytes, at + 4 * i, 4))
    }

    // The starting weights, in millionths, for 64 states: 0 past M. They are asked for where the file holds them.
    pub fn weights(&self) -> [u64; 64]
        ensures value { result ≡ padded (state_count self.now) (weight_field self.now) }
    {
        // Names a field, so that the proof learns that the file is framed.
        let _ = &self.head;
        self.numbers_at(WEIGHTS_AT)
    }

    // Their sum, which may pass 32 bits.
    pub fn weight_sum(&self) -> u64
        ensures { result ≡ sum (state_count self.now) (weight_field self.now) }
    {
        let bytes = self.bytes();
        let mut total = 0;
        // A loop: for a chain the bound of its sum is not found, and an array first takes longer.
        for i in 0..self.head.state_count() {
            total += be(bytes, WEIGHTS_AT + 4 * i, 4);
        }
        total
    }

    // f for 64 states: the reward rates, 0 past M.
    pub fn rewards(&self) -> [u64; 64]
        ensures { result ≡ padded (state_count self.now) (reward_field self.now) }
    {
        // Names a field, for the same reason.
        let _ = &self.head;
        self.numbers_at(self.rewards_at())
    }

    // F, the largest reward rate.
    pub fn max_reward(&self) -> u64
        ensures { result ≡ max_reward (model_of self.now) }
    {
        largest(&self.rewards()[..self.head.state_count()])
    }

    // Where row i of the rates starts: after M rewards and i rows of M - 1 rates. A state's number is a plain index, whose
    // bound each method that takes one asks for.
    fn row_at(&self, i: usize) -> usize
        requires { i < state_count self.now }
        ensures { result ≡ row_at self.now i }
    {
        let states = self.head.state_count();
        self.rewards_at() + 4 * states + 4 * (states - 1) * i
    }

    // The part of the file where state i's row of rates starts.
    pub fn row(&self, i: usize) -> &'a [u8]
        requires { i < state_count self.now }
        ensures { result.now ≡ drop (row_at self.now i) self.now }
    {
        &self.bytes()[self.row_at(i)..]
    }

    // The sum of row i's rates.
    fn row_sum(&self, i: usize) -> u64
        requires { i < state_count self.now }
        ensures { result ≡ row_sum (model_of self.now) i }
    {
        let row = self.row(i);
        let mut total = 0;
        // A loop, for the same reasons.
        for j in 0..self.head.state_count() {
            total += entry_in(row, i, j, 0);
        }
        total
    }

    // The row sums for 64 states, 0 past M.
    pub fn row_sums(&self) -> [u64; 64]
        ensures { result ≡ padded (state_count self.now) (row_sum (model_of self.now)) }
    {
        for_states(self.head.state_count(), |i| self.row_sum(i))
    }

    // E, the uniformization rate: the largest row sum, or 1 where all row sums are 0. The sums are lent, so that no row is summed twice.
    pub fn uniform_rate(&self, sums: &[u64; 64]) -> u64
        requires { sums.now ≡ padded (state_count self.now) (row_sum (model_of self.now)) }
        ensures { result ≡ uniform_rate (model_of self.now) }
    {
        largest(&sums[..self.head.state_count()]).max(1)
    }

    // M, R, the cells of a block, E and F.
    pub fn sizes(&self, sums: &[u64; 64]) -> Sizes
        requires highest_max { highest_moment self.now ≤ 8 }
        requires sums_value { sums.now ≡ padded (state_count self.now) (row_sum (model_of self.now)) }
        ensures { result ≡ sizes_of (model_of self.now) }
    {
        Sizes {
            states: self.head.state_count(),
            highest: self.head.highest_moment(),
            block: self.block_size(),
            rate: self.uniform_rate(sums),
            largest: self.max_reward(),
        }
    }
}

// X = E × T, the expected jump count in millionths, for one time. E is a u64, as Sizes holds it: who takes it alone asks for its bound.
pub fn jump_millionths(rate: u64, time: u32) -> u64
    requires { rate < 2 ^ 32 }
    ensures { result ≡ rate * time }
{
    rate * u64::from(time)
}
