// What the three divisions of one U(n,r) leave over, for worked solutions: of V, by E; of W, by F; of U, by n + r.
#![tactic(auto)]

ghost use Rattle.std.specs.Prelude.{◌≡◌, ◌||◌, ◌-◌, ◌*◌, ◌≤◌};
ghost use Rattle.definitions.specs.File.{state_count};
ghost use Rattle.definitions.specs.Chain.{model_of, chain_of, uniform_rate, padded, row_sum, sizes_of};
ghost use Rattle.definitions.specs.Rules.{answer_of, outside};
ghost use Rattle.definitions.specs.Moment.{model_level};
ghost use Rattle.definitions.specs.Remainders.{rests_at, rests_of, remainders_of, WorkedOut};
ghost use Rattle.laws.specs.Acceptance.{AcceptedModel};
ghost use Rattle.laws.specs.RemainderLaws.{Inside};
ghost use Rattle.vectors.specs.Lent.{chain_in};
ghost use Rattle.remainders.specs.Asked.{Askable};

use definitions::{Refusal, Rests, Sizes};
use reader::ModelFile;
use vectors::{Arrow, LentChain, Rows};

// At most this many states have their rows in a smaller array, as in the crate moments.
const FEW_STATES: usize = 16;

const FEW_PLACES: usize = FEW_STATES * FEW_STATES;

const MOST_PLACES: usize = 64 * 64;

// The remainders of U(n,r) at state i, counted from 0, of a chain that stands in arrays: V comes from U(n-1,r), W from U(n,r-1)
// at i, and U from V and W. The row means that this takes are counted for nobody.
fn rests_at(chain: &LentChain, n: u64, r: usize, i: usize) -> Rests
    requires { Askable chain.now.rows.sizes n r i }
    ensures { result ≡ rests_at (chain_in chain.now) n r i }
{
    let mut table = [[0; 64]; 9];
    chain.table_at(n - 1, &mut table);
    let before = table;
    let mut taken = 0;
    chain.next_table(n, &mut table, &mut taken);
    let v = chain.rows.row_mean(&before[r], i);
    let w = vectors::reward_share(chain.rewards[i], table[r - 1][i], chain.rows.sizes.largest);
    let u = vectors::mix(n, r as u64, v.quotient, w.quotient);
    Rests {
        mean: v.remainder,
        share: w.remainder,
        mix: u.remainder,
    }
}

// What is asked for: the remainders of U(n,r) at a state, counted from 1.
#[derive(Clone, Copy)]
struct Question {
    state: u64,
    n: u64,
    r: u64,
}

impl Question {
    // Whether the state is outside 1 to M, n outside 1 to N or r outside 1 to R.
    fn is_outside(self, sizes: Sizes, level: u64) -> bool
        ensures { result ≡ (outside 1 sizes.states self.state || outside 1 level self.n || outside 1 sizes.highest self.r) }
    {
        refusals::outside(1, sizes.states as u64, self.state)
            || refusals::outside(1, level, self.n)
            || refusals::outside(1, sizes.highest as u64, self.r)
    }
}

// An accepted file, with the sums of its rows and its sizes.
#[derive(Drop)]
struct Accepted<'a> {
    file: ModelFile<'a>,
    sums: [u64; 64],
    sizes: Sizes,
    ghost accepted: { AcceptedModel 1 2 file },
    ghost sums_value: { sums ≡ padded (model_of file).states (row_sum (model_of file)) },
    ghost sizes_value: { sizes ≡ sizes_of (model_of file) },
}

impl<'a> Accepted<'a> {
    fn new(file: ModelFile<'a>) -> Accepted<'a>
        requires { AcceptedModel 1 2 file }
        ensures { result.file ≡ file.entry }
    {
        let sums = file.row_sums();
        let sizes = file.sizes(&sums);
        Accepted { file, sums, sizes }
    }

    // N, its level.
    fn level(&self) -> u64
        ensures { result ≡ model_level (model_of self.now.file) }
    {
        let file = &self.file;
        let x = reader::jump_millionths(self.sizes.rate, file.head.time());
        let mut weights = [0; poisson::LEVELS];
        poisson::truncate(x, file.head.tolerance(), &mut weights).level
    }

    // The remainders of a question within its limits. What the file states is read into arrays, its rows into so many places.
    fn rests_in<const PLACES: usize>(&self, asked: Question) -> Rests
        requires inside { Inside (model_of self.now.file) asked.state asked.n asked.r }
        requires places { (state_count self.now.file * state_count self.now.file ≤ PLACES) × (PLACES ≤ 4096) }
        ensures { result ≡ rests_at (chain_of (model_of self.now.file)) asked.n asked.r (asked.state - 1) }
    {
        let mut arrows = [Arrow { target: 0, rate: 0 }; PLACES];
        let mut counts = [0; 64];
        arrows::list_rows(
            &self.file,
            &self.sums,
            self.sizes.rate,
            &mut arrows,
            &mut counts,
        );
        let rewards = self.file.rewards();
        let rows = Rows {
            sizes: self.sizes,
            arrows: &arrows,
            counts: &counts,
        };
        let chain = LentChain {
            rows,
            rewards: &rewards,
        };
        rests_at(
            &chain,
            asked.n,
            asked.r as usize,
            (asked.state - 1) as usize,
        )
    }

    // The same, with places enough for the rows.
    fn rests(&self, asked: Question) -> Rests
        requires { Inside (model_of self.now.file) asked.state asked.n asked.r }
        ensures { result ≡ rests_at (chain_of (model_of self.now.file)) asked.n asked.r (asked.state - 1) }
    {
        if self.file.head.state_count() <= FEW_STATES {
            self.rests_in::<FEW_PLACES>(asked)
        } else {
            self.rests_in::<MOST_PLACES>(asked)
        }
    }

    // The remainders of a question, or none.
    fn answer(&self, asked: Question) -> Option<Rests>
        ensures { result ≡ rests_of (model_of self.now.file) asked.state asked.n asked.r }
    {
        if asked.is_outside(self.sizes, self.level()) {
            return None;
        }
        Some(self.rests(asked))
    }
}

// The call: the first of rows 1 to 12 and 16 that holds, before all else; none where the state, counted from 1, is outside 1 to M,
// n outside 1 to N or r outside 1 to R; or what the three divisions of U(n,r) at the state leave. Their quotients are those that
// the vectors hold.
pub fn remainders(bytes: &[u8], state: u64, n: u64, r: u64) -> Result<Option<Rests>, Refusal>
    ensures answer { answer_of result ≡ remainders_of bytes.now state n r }
    ensures worked { WorkedOut (answer_of result) bytes.now state n r }
{
    let file = refusals::judge_file(bytes, 1, 2)?;
    Ok(Accepted::new(file).answer(Question { state, n, r }))
}
