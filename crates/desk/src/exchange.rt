// One exchange with a station.
ghost use Rattle.std.specs.Prelude.{◌≡◌, length};
ghost use Rattle.station.specs.Kinds.{card_row};
ghost use Rattle.desk.specs.Exchange.{Ready, Exchange};

use calls::{Asking, Check};
use field::Field;
use station::{Card, serve};

// The header and the values of the longest reply.
const REPLY_ROOM: usize = 4 + 128;

// Asks a station: a slip, the card's reply, taken into the tally, and the slip's return.
pub(crate) fn ask<F: Field, P: Asking>(
    check: &mut Check<F, P>,
    station: u32,
    card: &Card<F>,
    tally: &mut [u32],
)
    requires { Ready (card_row F.Field.ops card.now.words.now) (P.Asking.only check.old.phase) station check.old.book (length tally.old) }
    ensures exchange { Exchange F.Field.ops (card_row F.Field.ops card.now.words.now) (P.Asking.only check.old.phase) station check.old.book tally.old check.new.book tally.new }
    ensures phase { check.new.phase ≡ check.old.phase }
{
    let mut request = [0; 4];
    let mut reply = [0; REPLY_ROOM];
    let slip = check.slip(station, &mut request).unwrap();
    let count = serve(card, station, &request, &mut reply).unwrap();
    check.take(&slip, &reply[..count], tally).unwrap();
    check.return_slip(slip).unwrap();
}
