// Solving the differences of pairs of stations from the sums in a tally, each in its place.
ghost use Rattle.std.specs.Prelude.{◌≡◌, ℕ, ◌+◌, ◌-◌, ◌/◌, ◌<◌, ◌≤◌, length, slice_index, slice_index_or};
ghost use Rattle.field.specs.Field.{page_limit};
ghost use Rattle.field.specs.Sums.{entry};
ghost use Rattle.refusal.specs.Rules.{Within};
ghost use Rattle.solve.specs.Solution.{Enough};
ghost use Rattle.scheme.specs.Askings.{first_sums};
ghost use Rattle.scheme.specs.Differences.{gap};
ghost use Rattle.tally.specs.Rows.{sum_in};
ghost use Rattle.pairs.specs.declared.difference.Difference.{Difference as A-difference};
ghost use Rattle.pairs.specs.Difference.{Answered};
ghost use Rattle.pairs.specs.Held;
ghost use Rattle.pairs.specs.Solving.{PairsSolved};

use crate::difference::Difference;
use crate::held::pair_place;
use crate::pair_gaps::PairGaps;
use field::Field;
use solve::solve;
use tally::{Farm, Rows};

/// Solves the differences of all pairs of the farm's stations from their first sums, each with at most half as many codes that are not 0 as there
/// are sums.
pub fn solve_pairs<F: Field>(farm: &Farm, tally: &[u32], gaps: &mut PairGaps)
    requires narrow { Within 1 (page_limit F.Field.ops) farm.now.pages }
    ensures { PairsSolved F.Field.ops farm.now.stations farm.now.pages (first_sums farm.now.stations farm.now.bound) (sum_in tally.now farm.now.pages) gaps.new }
{
    gaps.stations = farm.stations;
    for t in 2..=farm.stations {
        solve_below::<F>(farm, tally, t, &mut gaps.pairs);
    }
}

// Solves the differences of the stations below t and t; the pairs before these stay.
fn solve_below<F: Field>(farm: &Farm, tally: &[u32], t: usize, pairs: &mut [Difference; 28])
    requires narrow { Within 1 (page_limit F.Field.ops) farm.now.pages }
    requires second { 2 ≤ t }
    requires few { t ≤ 8 }
    ensures solved { (s : ℕ) (d : A-difference) → 1 ≤ s → s < t →
        let sums = first_sums farm.now.stations farm.now.bound in
        Answered F.Field.ops farm.now.pages (sums / 2) sums (gap F.Field.ops (sum_in tally.now farm.now.pages) s t) (slice_index_or pairs.new (Held.pair_place s t) d) }
    ensures full { length pairs.new ≡ 28 }
    ensures stay { (i : ℕ) (d : A-difference) → i < Held.pair_place 1 t → slice_index_or pairs.new i d ≡ slice_index_or pairs.old i d }
{
    let rows = farm.rows(tally);
    let sums = farm.first_sums();
    for s in 1..t {
        solve_pair::<F>(&rows, s, t, sums, sums / 2, &mut pairs[pair_place(s, t)]);
    }
}

/// Solves the difference of the rows s and t from their first sums, with at most `weight` codes that are not 0.
pub fn solve_pair<F: Field>(
    rows: &Rows,
    s: usize,
    t: usize,
    sums: usize,
    weight: usize,
    difference: &mut Difference,
)
    requires narrow { Within 1 (page_limit F.Field.ops) rows.now.pages }
    requires enough { Enough rows.now.pages weight sums }
    ensures { Answered F.Field.ops rows.now.pages weight sums (gap F.Field.ops (sum_in rows.now.words.now rows.now.pages) s t) difference.new }
{
    let values = differences::<F>(rows, s, t, sums);
    solve_sums::<F>(rows.pages, &values, sums, weight, difference);
}

/// Solves the difference whose first sums are the first of the values. Here alone it is known that solving is not refused.
pub fn solve_sums<F: Field>(
    pages: usize,
    values: &[u32; 128],
    sums: usize,
    weight: usize,
    difference: &mut Difference,
)
    requires narrow { Within 1 (page_limit F.Field.ops) pages }
    requires enough { Enough pages weight sums }
    requires codes { (k : ℕ) → k < sums → slice_index values.now k < F.Field.ops.size }
    ensures { Answered F.Field.ops pages weight sums (entry values.now) difference.new }
{
    let Ok(found) = solve::<F>(pages, &values[..sums], weight, &mut difference.list) else {
        unreachable()
    };
    difference.weight = found;
}

// The first sums of station s minus those of station t; the others are not worked out, and stay 0.
fn differences<F: Field>(rows: &Rows, s: usize, t: usize, sums: usize) -> [u32; 128]
    requires { sums ≤ 128 }
    ensures long { length result ≡ 128 }
    ensures gaps { (k : ℕ) → k < sums → slice_index result k
        ≡ gap F.Field.ops (sum_in rows.now.words.now rows.now.pages) s t (k + 1) }
{
    let mut values = [0; 128];
    for (k, value) in values[..sums].iter_mut().enumerate() {
        *value = F::sub(rows.sum(s, k + 1), rows.sum(t, k + 1));
    }
    values
}
