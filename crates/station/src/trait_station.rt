// What every station answers.
ghost use Rattle.std.specs.Prelude.{◌≡◌, ℕ, ◌<◌, List, length, MatchResult};
ghost use Rattle.field.specs.Sums.{entry, power_sum};
ghost use Rattle.refusal.specs.Rules.{Refused, Accepted};
ghost use Rattle.station.specs.Questions.{asking_page, asking_sum};

use field::Field;
use refusal::Refusal;

/// A station holds one copy of a job: it means the signatures of its pages, and a question changes nothing
/// (docs/RULES.md, "Stations"). `Card` and `Shelf` are stations; a type of one's own can be another.
pub trait Station<F: Field> {
    // the signatures of the pages 1 to N
    ghost row: { Self → List ℕ };

    /// How many pages it holds.
    fn page_count(&self) -> usize
        ensures { result ≡ length (row self.now) };

    /// The signature of page 1 to N, a code; any other page is refused (11).
    fn signature(&self, page: usize) -> Result<u32, Refusal>
        ensures { MatchResult result
            (λ value. Accepted (asking_page (length (row self.now)) page)
            × (value ≡ entry (row self.now) page) × (value < F.Field.ops.size))
            (Refused (asking_page (length (row self.now)) page)) };

    /// Sum 1 to 128 of its signatures, a code; any other sum is refused (11).
    fn sum(&self, j: usize) -> Result<u32, Refusal>
        ensures { MatchResult result
            (λ value. Accepted (asking_sum j)
            × (value ≡ power_sum F.Field.ops (length (row self.now)) (entry (row self.now)) j) × (value < F.Field.ops.size))
            (Refused (asking_sum j)) };
}
