// The cards of a farm, one for each station.
ghost use Rattle.std.specs.Prelude.{◌≡◌, ◌*◌, length, MatchResult};
ghost use Rattle.field.specs.Field.{page_limit};
ghost use Rattle.refusal.specs.Rules.{Refused, Accepted, Within};
ghost use Rattle.scheme.specs.Farm.{Station};
ghost use Rattle.desk.specs.Copies.{length_is, words_of};

use field::Field;
use refusal::Refusal;
use station::Card;
use tally::Farm;

// Refuses the first position that is missing or surplus.
pub(crate) fn accept_length(due: usize, count: usize) -> Result<(), Refusal>
    ensures { MatchResult result (λ _. Accepted (length_is due count)) (Refused (length_is due count)) }
{
    if count != due {
        return Err(Refusal::Garbled(due.min(count) + 1));
    }
    Ok(())
}

// The card of a station.
pub(crate) fn card_of<'a, F: Field>(farm: &Farm, words: &'a [u32], station: usize) -> Card<'a, F>
    requires narrow { Within 1 (page_limit F.Field.ops) farm.now.pages }
    requires whole { length words.now ≡ farm.now.stations * farm.now.pages }
    requires station { Station farm.now.stations station }
    ensures { result.words.now ≡ words_of farm.now.pages words.now station }
{
    let start = (station - 1) * farm.pages;
    Card::new(&words[start..start + farm.pages]).unwrap()
}
