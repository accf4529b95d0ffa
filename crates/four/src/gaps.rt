// Differences of rows, by page.
ghost use Rattle.std.specs.Prelude.{◌≡◌};
ghost use Rattle.scheme.specs.Differences.{Gaps};
ghost use Rattle.pairs.specs.Held.{gaps_in};

use field::Field;
use pairs::PairGaps;

/// The differences of any two rows that are relied on.
pub trait RowGaps<F: Field> {
    ghost gaps: { Self → Gaps };

    /// Row s minus row t on a page.
    fn gap(&self, s: usize, t: usize, page: usize) -> u32
        ensures { result ≡ gaps self.now s t page };
}

// As they are solved.
impl<F: Field> RowGaps<F> for PairGaps {
    ghost gaps = { gaps_in F.Field.ops };

    fn gap(&self, s: usize, t: usize, page: usize) -> u32 {
        PairGaps::gap::<F>(self, s, t, page)
    }
}
