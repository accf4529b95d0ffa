// A check and its public calls, one after another; the other files hold the work that they do.
ghost use Rattle.field.specs.Field.{page_limit};
ghost use Rattle.refusal.specs.Rules.{Within};

use crate::book::Book;
use crate::counts::Counts;
use crate::ending::Ending;
use crate::entering::open_rows;
use crate::opening::{accept_terms, new_book};
use crate::phases::{Closed, First, Second, Verdict, Way};
use crate::slip::{Returned, Slip};
use crate::stages::{Asking, Phase};
use crate::weighed::{Declined, Weighed};
use field::Field;
use refusal::{Buffer, Refusal};
use station::Station;
use std::marker::PhantomData;

/// A check over the field F. Its type says how far it is, `First`, `Second` or `Closed`, and so which calls there are.
///
/// A check keeps no tally: the same tally is lent to `open`, `take`, `weigh`, `settle` and `list`. What holds of every run of calls is the promise,
/// which the contract of `open` names; each call's contract says that it is a step of a run.
/// Rules: docs/RULES.md, "A check" and "The promise". A refused call changes nothing.
#[derive(Drop)]
pub struct Check<F: Field, P> {
    pub(crate) book: Book,
    pub(crate) phase: P,
    pub(crate) field: PhantomData<F>,
    ghost narrow: { Within 1 (page_limit F.Field.ops) book.terms.farm.pages },
}

impl<F: Field> Check<F, First> {
    ghost use Rattle.std.specs.Prelude.{◌≡◌, [], IfOk};
    ghost use Rattle.calls.specs.Opening.{Opened};
    ghost use Rattle.calls.specs.Closing.{Weighing};
    ghost use Rattle.calls.specs.Runs.{Run};
    ghost use Rattle.calls.specs.Steps.{WeighSteps};
    ghost use Rattle.calls.specs.Promise.{EveryRun, ByReplies};

    /// Opens check `number`, 1 to 2^28 − 1, of 3 to 8 stations, of 1 to min(1,920, K) pages, with a bound of 1 to 64 stray copies.
    ///
    /// Clears the tally's rows, `stations × (pages + 128)` words, and fills row 1 with the own copy's signatures and sums.
    /// Refused, in this order: the number, the stations, the pages, the bound, an own copy of another number of pages (1, places 1 to 5);
    /// a tally that is too short (2, place 1). Rules: "The calls", "The tally".
    pub fn open<S: Station<F>>(
        number: u32,
        stations: u32,
        pages: u32,
        bound: u32,
        own: &S,
        tally: &mut [u32],
    ) -> Result<Check<F, First>, Refusal>
        ensures opened { Opened F.Field.ops (S.Station.row own.now) number stations pages bound
            tally.old result tally.new }
        ensures begins { IfOk result (λ check.
            Run F.Field.ops (S.Station.row own.now) tally.new [] check.book
            (⟦<First as Phase>⟧.stage check.phase)) }
        ensures promise { EveryRun }
        ensures replies { ByReplies }
    {
        let terms = accept_terms::<F>(number, stations, pages, bound, own.page_count())?;
        if terms.farm.tally_size() > tally.len() {
            return Err(Refusal::Cramped(Buffer::Tally));
        }
        open_rows::<F, S>(own, &terms, tally);
        Ok(Check {
            book: new_book(terms),
            phase: First,
            field: PhantomData,
        })
    }

    /// Ends the first asking: closes the check, or names the station that is asked again.
    ///
    /// It goes by what stands in the tally, and writes there the signatures of rows that it fills.
    /// Refused, and the check comes back as it was: a tally that is too short (2, place 1); the lowest station whose slip is out (4, the station);
    /// the lowest whose reply is lacking (7, the station). Rules: "The calls", "The verdict".
    pub fn weigh(self, tally: &mut [u32]) -> Result<Weighed<F>, Declined<Check<F, First>>>
        ensures weighing { Weighing F.Field.ops self tally.old result tally.new }
        ensures step { WeighSteps F.Field.ops
            ⟦<First as Phase>⟧.stage ⟦<Second as Phase>⟧.stage ⟦<Closed as Phase>⟧.stage
            self tally.old result tally.new }
    {
        if let Err(refusal) = self.book.can_close(tally.len()) {
            return Err(Declined {
                check: self,
                refusal,
            });
        }
        let ending = self.book.terms.weigh_rows::<F>(tally);
        let Check { book, field, .. } = self;
        Ok(match ending {
            Ending::Closes(verdict) => Weighed::Closes(Check {
                book,
                phase: Closed {
                    way: Way::ByWeighing,
                    verdict,
                },
                field,
            }),
            Ending::Asks(station) => Weighed::Asks(Check {
                book: book.ask_again(station),
                phase: Second { station },
                field,
            }),
        })
    }
}

impl<F: Field, P: Asking> Check<F, P> {
    ghost use Rattle.std.specs.Prelude.{◌≡◌};
    ghost use Rattle.calls.specs.Slips.{Slips, Takes};
    ghost use Rattle.calls.specs.Runs;
    ghost use Rattle.calls.specs.Runs.{Step};

    /// Hands out a slip for a station, 2 to M, and writes its request into the first four words of the buffer.
    ///
    /// Refused, in this order: a buffer of fewer than four words (2, place 2); no such station (3); in the second asking another station than its
    /// own (6); a station whose slip is out (4), or whose reply is in (5), each with the station as its place; when 2^32 − 1 slips were handed
    /// out (11, place 0). Rules: "Slips", "The calls".
    pub fn slip(&mut self, station: u32, request: &mut [u32]) -> Result<Slip, Refusal>
        ensures book { Slips self.old.book (P.Asking.only self.old.phase) station request.old
            result self.new.book request.new }
        ensures phase { self.new.phase ≡ self.old.phase }
        ensures step { Step F.Field.ops self.old.book (P.Phase.stage self.old.phase)
            (Runs.slip station request.old result request.new) self.new.book (P.Phase.stage self.new.phase) }
    {
        self.book.hand_out(self.phase.only(), station, request)
    }

    /// Takes the words of a reply under its slip, which stays out: its values go to their places in the row of the slip's station.
    ///
    /// Refused, in this order: a tally that is too short (2, place 1); a slip that is not out here (10, its station); a station whose reply was
    /// taken (5, the station); a garbled reply (8), then a foreign one (9), at the lowest such position, from 1. Rules: "The calls", "Words on the link".
    pub fn take(&mut self, slip: &Slip, reply: &[u32], tally: &mut [u32]) -> Result<(), Refusal>
        ensures book { Takes F.Field.ops self.old.book slip.now.request reply.now tally.old
            result self.new.book tally.new }
        ensures phase { self.new.phase ≡ self.old.phase }
        ensures step { Step F.Field.ops self.old.book (P.Phase.stage self.old.phase)
            (Runs.take slip.now reply.now tally.old result tally.new)
            self.new.book (P.Phase.stage self.new.phase) }
    {
        self.book.take_in::<F>(&slip.request, reply, tally)
    }
}

impl<F: Field, P: Phase> Check<F, P> {
    ghost use Rattle.std.specs.Prelude.{◌≡◌};
    ghost use Rattle.calls.specs.Slips.{Returns};
    ghost use Rattle.calls.specs.Listing;
    ghost use Rattle.calls.specs.Runs;
    ghost use Rattle.calls.specs.Runs.{Step, found};

    /// Ends a slip, in every phase, and says whether a reply to its request was taken here.
    ///
    /// Refused: a slip that is not out here (10, its station); the check stays as it was, and the slip has ended all the same. Rules: "Slips", "The calls".
    pub fn return_slip(&mut self, slip: Slip) -> Result<Returned, Refusal>
        ensures book { Returns self.old.book slip.request result self.new.book }
        ensures phase { self.new.phase ≡ self.old.phase }
        ensures step { Step F.Field.ops self.old.book (P.Phase.stage self.old.phase)
            (Runs.return slip result) self.new.book (P.Phase.stage self.new.phase) }
    {
        let Slip { request } = slip;
        self.book.end(&request)
    }

    /// Writes the bad pages of a station, 1 to M, rising, into the first words of `out`, and tells how many there are.
    ///
    /// Refused, in this order: a tally that is too short (2, place 1); when the check has not closed with a report (12, place 0); no such station
    /// (3, the station); a buffer that is too short for these pages (2, place 2). Rules: "The calls", "The verdict".
    pub fn list(&self, station: u32, tally: &[u32], out: &mut [u32]) -> Result<usize, Refusal>
        ensures lists { Listing.Listing self.now.book.terms (found (P.Phase.stage self.now.phase)) station
            tally.now out.old result out.new }
        ensures step { Step F.Field.ops self.now.book (P.Phase.stage self.now.phase)
            (Runs.list station tally.now out.old result out.new) self.now.book (P.Phase.stage self.now.phase) }
    {
        self.book
            .list_pages(self.phase.found(), station, tally, out)
    }
}

impl<F: Field> Check<F, Second> {
    ghost use Rattle.std.specs.Prelude.{◌≡◌};
    ghost use Rattle.calls.specs.Closing.{Settling};
    ghost use Rattle.calls.specs.Runs.{second};
    ghost use Rattle.calls.specs.Steps.{SettleSteps};

    /// The station that is asked again, 2 to M.
    pub fn station(&self) -> u32
        ensures station { result ≡ self.now.phase.station }
        ensures stage { ⟦<Second as Phase>⟧.stage self.now.phase ≡ second result }
    {
        self.phase.station
    }

    /// Ends the second asking and closes the check, by what stands in the tally; refused as `weigh` is. Rules: "The calls", "The verdict".
    pub fn settle(self, tally: &mut [u32]) -> Result<Check<F, Closed>, Declined<Check<F, Second>>>
        ensures settling { Settling F.Field.ops self tally.old result tally.new }
        ensures step { SettleSteps F.Field.ops ⟦<Second as Phase>⟧.stage ⟦<Closed as Phase>⟧.stage
            self tally.old result tally.new }
    {
        if let Err(refusal) = self.book.can_close(tally.len()) {
            return Err(Declined {
                check: self,
                refusal,
            });
        }
        let verdict = self.book.terms.settle_rows::<F>(tally);
        let Check { book, phase, field } = self;
        Ok(Check {
            book,
            phase: Closed {
                way: Way::BySettling(phase.station),
                verdict,
            },
            field,
        })
    }
}

impl<F: Field> Check<F, Closed> {
    ghost use Rattle.std.specs.Prelude.{◌≡◌};
    ghost use Rattle.calls.specs.Runs.{closed};

    /// How the check closed: with a report, with a split page, or over.
    pub fn verdict(&self) -> Verdict
        ensures verdict { result ≡ self.now.phase.verdict }
        ensures stage { ⟦<Closed as Phase>⟧.stage self.now.phase ≡ closed self.now.phase.way result }
    {
        self.phase.verdict
    }

    /// Which call closed the check, and which station was asked again before it, if one was.
    pub fn way(&self) -> Way
        ensures { result ≡ self.now.phase.way }
    {
        self.phase.way
    }
}

impl<F: Field, P> Check<F, P> {
    ghost use Rattle.std.specs.Prelude.{◌≡◌};

    /// Slips handed out, returned and still out, and the sums and signatures taken, at any time. Rules: "What a check tells".
    pub fn counts(&self) -> Counts
        ensures { result ≡ self.now.book.counts }
    {
        self.book.counts
    }
}
