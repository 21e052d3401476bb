// The reward vectors U(n,r): a number of ticks for each of 64 states.
//
// The rows of c are lent, M places for each, row i from i * M on: in a place stands an arrow, a state and its entry of c. A row uses the
// first of its places, counts[i] of them, for the states with a rate above 0 and the diagonal, highest first (crate arrows). A vector goes in
// by value and the new one comes back: no vector changes while it is read.
#![tactic(auto)]

ghost use Rattle.std.specs.Prelude.{◌≡◌, List, ℕ, ◌+◌, ◌*◌, ◌-◌, ◌^◌, ◌<◌, ◌≤◌, get_or};
ghost use Rattle.definitions.specs.Division.{division};
ghost use Rattle.definitions.specs.Chain.{Listing, arrays, padded};
ghost use Rattle.definitions.specs.Vectors.{row_total, reward_share, mixed, next_entry, ONE};
ghost use Rattle.laws.specs.ArrayLaws.{entry_of};
ghost use Rattle.vectors.specs.Ready.{RowReady, MixReady, StepReady, Ticks, RewardsReady, Ready};
ghost use Rattle.vectors.specs.Arrows.{arrow_listing};
ghost use Rattle.vectors.specs.Table.{blank, table_of};
ghost use Rattle.vectors.specs.Divisions.{InOrder, StepDrops, SharesDrop};

use definitions::{Division, ONE, Sizes};

// A place of a row: a state, and its entry of c.
#[derive(Clone, Copy)]
pub struct Arrow {
    pub target: u8,
    pub rate: u32,
}

// The rows of a chain, as they are lent.
#[derive(Clone, Copy)]
pub struct Rows<'a> {
    pub sizes: Sizes,
    pub arrows: &'a [Arrow],
    pub counts: &'a [usize; 64],
}

// A chain that stands in arrays, within its limits.
#[derive(Clone, Copy)]
pub struct LentChain<'a> {
    pub rows: Rows<'a>,
    pub rewards: &'a [u64; 64],
    pub ghost ready: { Ready rows.sizes (arrow_listing rows.arrows.now rows.counts.now) rewards.now },
}

// W: f(i) * x by F.
pub fn reward_share(reward: u64, x: u64, largest: u64) -> Division
    requires { (reward ≤ 1000000) × (x ≤ ONE) × (1 ≤ largest) }
    ensures { result ≡ division (reward * x) largest }
{
    muldiv::divide(reward * x, largest)
}

// U: n * V + r * W by n + r.
pub fn mix(n: u64, r: u64, v: u64, w: u64) -> Division
    requires { MixReady n r v w }
    ensures { result ≡ division (mixed n r v w) (n + r) }
{
    muldiv::divide(n * v + r * w, n + r)
}

impl Rows<'_> {
    ghost use Rattle.vectors.specs.Lent.{listing_of};

    // V: the sum over j of c(i,j) * v(j), by E. It reads no reward. Of a model whose rows the places hold, it adds the states with
    // a rate above 0 and the diagonal, from the highest to the lowest.
    pub fn row_mean(&self, v: &[u64; 64], i: usize) -> Division
        requires { RowReady self.now.sizes (listing_of self.now) v.now i }
        ensures mean { (f : List ℕ) → result ≡ division (row_total (arrays self.now.sizes (listing_of self.now) f) (entry_of v.now) i) self.now.sizes.rate }
        ensures order { InOrder self.now.sizes (listing_of self.now) v.now i result }
    {
        let first = i * self.sizes.states;
        let last = first + self.counts[i];
        let mut total = 0;
        for arrow in &self.arrows[first..last] {
            total += u64::from(arrow.rate) * v[usize::from(arrow.target)];
        }
        muldiv::divide(total, self.sizes.rate)
    }
}

// U(n,0): ONE at the states, and 0 past them. Here a number of states stands alone, so its bound is asked for.
fn ones(states: usize) -> [u64; 64]
    requires { states ≤ 64 }
    ensures { result ≡ padded states (λ i. ONE) }
{
    let mut next = [0; 64];
    next[..states].fill(ONE);
    next
}

// U(0,r) of U(0,r-1), same: W at the states, its remainder dropped, and 0 past them. It reads no chain.
fn shares(sizes: Sizes, rewards: &[u64; 64], same: [u64; 64]) -> [u64; 64]
    requires { RewardsReady sizes rewards.now × Ticks sizes.states same }
    ensures vector { (a : Listing) → result ≡ padded sizes.states (λ i. reward_share (arrays sizes a rewards.now) (get_or same i 0) i) }
    ensures dropped { SharesDrop sizes rewards.now same result }
{
    let mut next = [0; 64];
    // Not `array::from_fn`: that is worked out for all 64, which a small file would pay for.
    for (i, entry) in next[..sizes.states].iter_mut().enumerate() {
        let w = reward_share(rewards[i], same[i], sizes.largest);
        *entry = w.quotient;
    }
    next
}

// The vectors of n = 0, in a table of zeros: row r becomes U(0,r) for r = 0 to R, the highest moment. It reads
// no chain. R ≤ 8 is asked for where a table is filled: a single step reads no R.
pub fn first_table(sizes: Sizes, rewards: &[u64; 64], table: &mut [[u64; 64]; 9])
    requires { RewardsReady sizes rewards.now × (sizes.highest ≤ 8) × (table.old ≡ blank) }
    ensures { (a : Listing) → table.new ≡ table_of (arrays sizes a rewards.now) sizes.highest 0 }
{
    table[0] = ones(sizes.states);
    for r in 1..=sizes.highest {
        table[r] = shares(sizes, rewards, table[r - 1]);
    }
}

impl LentChain<'_> {
    ghost use Rattle.vectors.specs.Lent.{chain_in};

    // U(n,r) of U(n-1,r), before, and U(n,r-1), same: at the states, and 0 past them. The remainders of V by E, of W by F and of U
    // by n + r are dropped. Each row mean adds one to the count of those taken.
    pub fn step(
        &self,
        n: u64,
        r: u64,
        before: [u64; 64],
        same: [u64; 64],
        taken: &mut u64,
    ) -> [u64; 64]
        requires { StepReady self.now.rows.sizes.states n r before same × (taken.old + self.now.rows.sizes.states < 2 ^ 64) }
        ensures vector { result ≡ padded self.now.rows.sizes.states (next_entry (chain_in self.now) n r (entry_of before) (entry_of same)) }
        ensures dropped { StepDrops (chain_in self.now) n r before same result }
        ensures taken { taken.new ≡ taken.old + self.now.rows.sizes.states }
    {
        let sizes = self.rows.sizes;
        let mut next = [0; 64];
        for (i, entry) in next[..sizes.states].iter_mut().enumerate() {
            let v = self.rows.row_mean(&before, i);
            *taken += 1;
            let w = reward_share(self.rewards[i], same[i], sizes.largest);
            let u = mix(n, r, v.quotient, w.quotient);
            *entry = u.quotient;
        }
        next
    }

    // The vectors of n in the place of those of n - 1: R steps, which add their row means to the count. Row r is read as
    // U(n-1,r) and becomes U(n,r); the row before it is U(n,r-1) by then.
    pub fn next_table(&self, n: u64, table: &mut [[u64; 64]; 9], taken: &mut u64)
        requires in_range { (self.now.rows.sizes.highest ≤ 8) × (1 ≤ n) × (n ≤ 1024) × (taken.old + self.now.rows.sizes.states * self.now.rows.sizes.highest < 2 ^ 64) }
        requires table_value { table.old ≡ table_of (chain_in self.now) self.now.rows.sizes.highest (n - 1) }
        ensures table { table.new ≡ table_of (chain_in self.now) self.now.rows.sizes.highest n }
        ensures taken { taken.new ≡ taken.old + self.now.rows.sizes.states * self.now.rows.sizes.highest }
    {
        for r in 1..=self.rows.sizes.highest {
            table[r] = self.step(n, r as u64, table[r], table[r - 1], taken);
        }
    }

    // The vectors of n, in a table of zeros: row r becomes U(n,r). The row means that they take are counted for nobody.
    pub fn table_at(&self, n: u64, table: &mut [[u64; 64]; 9])
        requires { (self.now.rows.sizes.highest ≤ 8) × (n ≤ 1024) × (table.old ≡ blank) }
        ensures { table.new ≡ table_of (chain_in self.now) self.now.rows.sizes.highest n }
    {
        first_table(self.rows.sizes, self.rewards, table);
        for k in 1..=n {
            let mut taken = 0;
            self.next_table(k, table, &mut taken);
        }
    }
}
