// The two ends of the link agree.
ghost use Rattle.std.specs.Prelude.{ℕ, ◌<◌};
ghost use Rattle.field.specs.Sums.{entry};
ghost use Rattle.wire.specs.declared.request.Request.{Request};
ghost use Rattle.station.specs.Serving.{EndsMeet, EndsAgree};

use crate::serving::ask;
use crate::trait_station::Station;
use field::Field;
use wire::Asked;

/// A theorem of every field: what a station serves to a request, read against that request, is accepted and
/// gives exactly the answers of its meaning.
pub fn ends_agree()
    ensures { EndsAgree }
{}

/// Every entry of a station's row is a code, as its answers are: it asks the station for each page.
pub fn holds_codes<F: Field, S: Station<F>>(station: &S)
    ensures { (page : ℕ) → entry (S.Station.row station.now) page < F.Field.ops.size }
{
    for page in 1..=station.page_count() {
        let _code = ask::<F, S>(station, Asked::Signatures, page);
    }
}

/// The same as `ends_agree` of any station's row, since it holds codes: it asks for each page, as
/// `holds_codes` does.
pub fn station_agrees<F: Field, S: Station<F>>(station: &S)
    ensures { (q : Request) → EndsMeet F.Field.ops (S.Station.row station.now) q }
{
    holds_codes::<F, S>(station);
}
