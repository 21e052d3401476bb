// The arrows of a model file, listed for the steps: a row mean adds only the states with a rate above 0 and the diagonal,
// from the highest to the lowest.
//
// Row i has M places, from i * M on. In the first of them stand the states that its mean adds, highest first, each with its
// entry of c: the rate, and on the diagonal E less the row's sum.
#![tactic(auto)]

ghost use Rattle.std.specs.Prelude.{◌≡◌, ◌||◌, map, ◌*◌, ◌≤◌, ◌<◌, ◌^◌, eqb, ltb, length};
ghost use Rattle.std.proofs.lemmas.List.Edits.{sets};
ghost use Rattle.definitions.specs.Sums.{over, rows_stored};
ghost use Rattle.definitions.specs.File.{state_count};
ghost use Rattle.definitions.specs.Chain.{model_of, row_sum, uniform_rate, c, padded};
ghost use Rattle.definitions.specs.Arrows.{added_states, ListsRows};
ghost use Rattle.laws.specs.ArrowLaws.{HoldsRows};
ghost use Rattle.vectors.specs.Arrows.{targets_of, rates_of, arrow_listing};
ghost use Rattle.arrows.specs.Rows.{RowAsked};

use reader::ModelFile;
use vectors::Arrow;

// Whether row i's mean adds state j: on the diagonal, and where the rate is above 0. The entry is c(i,j).
fn is_added(i: usize, j: usize, entry: u64) -> bool
    ensures { result ≡ (eqb j i || ltb 0 entry) }
{
    j == i || entry > 0
}

// Row i's states and their entries, in the first of its places. Returns how many they are.
fn list_row(file: &ModelFile, i: usize, diagonal: u64, arrows: &mut [Arrow]) -> usize
    requires { RowAsked file.now i diagonal (length arrows.old) }
    ensures count { result ≡ length (added_states (model_of file.now) i) }
    ensures targets { targets_of arrows.new ≡ sets (targets_of arrows.old) (i * state_count file.now) (added_states (model_of file.now) i) }
    ensures rates { rates_of arrows.new ≡ sets (rates_of arrows.old) (i * state_count file.now) (map (c (model_of file.now) i) (added_states (model_of file.now) i)) }
{
    let states = file.head.state_count();
    let row = file.row(i);
    let first = i * states;
    let mut k = 0;
    for j in (0..states).rev() {
        let entry = reader::entry_in(row, i, j, diagonal);
        if is_added(i, j, entry) {
            arrows[first + k] = Arrow {
                target: j as u8,
                rate: entry as u32,
            };
            k += 1;
        }
    }
    k
}

// All rows, in the places that are lent: of each the states and entries, and how many they are. The other places stay.
pub fn list_rows(
    file: &ModelFile,
    sums: &[u64; 64],
    rate: u64,
    arrows: &mut [Arrow],
    counts: &mut [usize],
)
    requires file_in_bounds { (state_count file.now * state_count file.now ≤ length arrows.old) × (state_count file.now ≤ length counts.old) }
    requires sums_value { sums.now ≡ padded (state_count file.now) (row_sum (model_of file.now)) }
    requires rate_value { (rate ≡ uniform_rate (model_of file.now)) × (rate < 2 ^ 32) }
    ensures targets { targets_of arrows.new ≡ rows_stored (added_states (model_of file.now)) (state_count file.now) (state_count file.now) (targets_of arrows.old) }
    ensures rates { rates_of arrows.new ≡ rows_stored (λ i. map (c (model_of file.now) i) (added_states (model_of file.now) i)) (state_count file.now) (state_count file.now) (rates_of arrows.old) }
    ensures counts { counts.new ≡ over (state_count file.now) (λ i. length (added_states (model_of file.now) i)) counts.old }
    ensures held { HoldsRows (model_of file.now) (arrow_listing arrows.new counts.new) }
    ensures shown { ListsRows (model_of file.now) (arrow_listing arrows.new counts.new) }
{
    for i in 0..file.head.state_count() {
        counts[i] = list_row(file, i, rate - sums[i], arrows);
    }
}
