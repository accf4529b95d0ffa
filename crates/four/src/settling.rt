// Settling the station in doubt: its difference from the leads of the others, and the rows that follow.
ghost use Rattle.std.specs.Prelude.{◌≡◌, ℕ, ◌+◌, ◌<◌, ◌≤◌, length, slice_index};
ghost use Rattle.field.specs.Sums.{entry};
ghost use Rattle.algebra.specs.Vectors.{Page};
ghost use Rattle.solve.specs.Answer.{code_at};
ghost use Rattle.scheme.specs.Askings.{all_sums};
ghost use Rattle.scheme.specs.Four;
ghost use Rattle.scheme.specs.Four.{Doubted, lead_of_others, gap_from_first, sum_from_leads};
ghost use Rattle.field.specs.Field.{page_limit};
ghost use Rattle.refusal.specs.Rules.{Within};
ghost use Rattle.four.specs.Leads.{LeadsAnswered};
ghost use Rattle.scheme.specs.Settling.{SettlesFour};
ghost use Rattle.tally.specs.Rows.{sum_in, signature_in, tally_size};
ghost use Rattle.tally.specs.Judging.{Ends};

use crate::filling::fill_rows;
use crate::gaps::RowGaps;
use crate::others::Others;
use field::Field;
use pairs::{Difference, solve_sums};
use solve::{Entry, code_at};
use std::marker::PhantomData;
use tally::{Farm, Outcome};

// Differences by way of the leads: the list is the difference of the station aside from them.
#[derive(Drop)]
pub(crate) struct ByLeads<'a, F: Field, G> {
    others: Others<'a, F, G>,
    list: &'a [Entry; 129],
}

// Only the differences of row 1 from the others are told.
impl<'a, F: Field, G: RowGaps<F>> RowGaps<F> for ByLeads<'a, F, G> {
    ghost gaps = { λ x. λ s t n. gap_from_first F.Field.ops (G.RowGaps.gaps x.others.gaps.now) x.others.aside (code_at x.list.now) (lead_of_others x.others.farm.now.stations (G.RowGaps.gaps x.others.gaps.now) x.others.aside n) t n };

    fn gap(&self, _s: usize, t: usize, page: usize) -> u32 {
        let lead = self.others.lead(page);
        let code = code_at(self.list, page);
        if self.others.aside == 1 {
            F::add(code, self.others.gaps.gap(lead, t, page))
        } else if t == self.others.aside {
            F::sub(self.others.gaps.gap(1, lead, page), code)
        } else {
            self.others.gaps.gap(1, t, page)
        }
    }
}

impl<'a, F: Field, G: RowGaps<F>> Others<'a, F, G> {
    // The station that the one aside is compared with.
    fn beside(&self) -> usize
        ensures { result ≡ Four.beside self.now.aside }
    {
        if self.aside == 1 { 2 } else { 1 }
    }

    // The differences of the station beside from the leads, page by page. No heap: room for the most pages, of which the farm's are read.
    fn lead_gaps(&self) -> [u32; 1920]
        ensures { (n : ℕ) → Page self.now.farm.now.pages n → entry result n
            ≡ G.RowGaps.gaps self.now.gaps.now (Four.beside self.now.aside) (lead_of_others self.now.farm.now.stations (G.RowGaps.gaps self.now.gaps.now) self.now.aside n) n }
    {
        let beside = self.beside();
        let mut row = [0; 1920];
        for (before, gap) in row[..self.farm.pages].iter_mut().enumerate() {
            *gap = self.gaps.gap(beside, self.lead(before + 1), before + 1);
        }
        row
    }

    // The sums of the difference of the station aside from the leads, from place 0 on; 0 past all that are told. No heap: room for the most sums.
    fn lead_sums(&self, tally: &[u32]) -> [u32; 128]
        ensures { (k : ℕ) → k < all_sums self.now.farm.now.pages self.now.farm.now.bound → slice_index result k
            ≡ sum_from_leads F.Field.ops self.now.farm.now.stations self.now.farm.now.pages self.now.farm.now.bound
            (sum_in tally.now self.now.farm.now.pages) (G.RowGaps.gaps self.now.gaps.now) self.now.aside (k + 1) }
    {
        let rows = self.farm.rows(tally);
        let beside = self.beside();
        let row = self.lead_gaps();
        let mut values = [0; 128];
        for (k, value) in values[..self.farm.all_sums()].iter_mut().enumerate() {
            let gap = F::sub(rows.sum(self.aside, k + 1), rows.sum(beside, k + 1));
            *value = F::add(gap, page::row_sum::<F>(&row[..self.farm.pages], k + 1));
        }
        values
    }

    // The difference of the station aside from the leads.
    fn solve_leads(&self, tally: &[u32], difference: &mut Difference)
        requires { Within 1 (page_limit F.Field.ops) self.now.farm.now.pages }
        ensures { LeadsAnswered F.Field.ops self.now.farm.now.stations self.now.farm.now.pages self.now.farm.now.bound
            (sum_in tally.now self.now.farm.now.pages) (G.RowGaps.gaps self.now.gaps.now) self.now.aside difference.new }
    {
        let values = self.lead_sums(tally);
        let farm = self.farm;
        solve_sums::<F>(farm.pages, &values, farm.all_sums(), farm.bound, difference);
    }
}

// Settles the station in doubt: the rows are filled or, where its difference from the leads has no solution, it is over.
pub(crate) fn settle_aside<F: Field, G: RowGaps<F>>(
    farm: &Farm,
    gaps: &G,
    aside: usize,
    tally: &mut [u32],
) -> Outcome
    requires room { tally_size farm.now.stations farm.now.pages ≤ length tally.old }
    requires narrow { Within 1 (page_limit F.Field.ops) farm.now.pages }
    requires doubted { Doubted F.Field.ops farm.now.stations farm.now.pages farm.now.bound (sum_in tally.old farm.now.pages) (G.RowGaps.gaps gaps.now) aside }
    ensures { Ends farm.now.stations farm.now.pages
        (SettlesFour F.Field.ops farm.now.stations farm.now.pages farm.now.bound (sum_in tally.old farm.now.pages) (sum_in tally.old farm.now.pages) (signature_in tally.old farm.now.pages 1))
        tally.old tally.new result }
{
    let others = Others {
        farm,
        gaps,
        aside,
        field: PhantomData::<F>,
    };
    let mut difference = Difference::none();
    others.solve_leads(tally, &mut difference);
    if difference.weight.is_none() {
        return Outcome::Over;
    }
    fill_rows::<F, _>(
        farm,
        &ByLeads {
            others,
            list: &difference.list,
        },
        tally,
    );
    Outcome::Filled
}
