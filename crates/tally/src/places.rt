// The places of a tally, and writing one. A place past its end is not written.
// What writes takes the tally and the pages: rows that are written would be a second struct beside `Rows`, for three calls.
ghost use Rattle.std.specs.Prelude.{◌≡◌, ◌-◌, ◌^◌, min, slice_index, slice_set};
ghost use Rattle.tally.specs.Rows.{signature_place, sum_place};
ghost use Rattle.tally.specs.Rows;

// The sums in each row.
pub const SUM_COUNT: usize = 128;

// The signature of a page in the row of a station; past the end, 0.
pub(crate) fn signature_at(tally: &[u32], pages: usize, station: usize, page: usize) -> u32
    ensures { result ≡ Rows.signature_in tally.now pages station page }
{
    word(tally, signature_place(pages, station, page))
}

pub fn put_signature(tally: &mut [u32], pages: usize, station: usize, page: usize, signature: u32)
    ensures { tally.new ≡ slice_set tally.old (signature_place pages station page) signature }
{
    put(tally, signature_place(pages, station, page), signature);
}

pub fn put_sum(tally: &mut [u32], pages: usize, station: usize, j: usize, sum: u32)
    ensures { tally.new ≡ slice_set tally.old (sum_place pages station j) sum }
{
    put(tally, sum_place(pages, station, j), sum);
}

// A place, or where it is past all places of the machine, the last of these, which no tally has.
fn signature_place(pages: usize, station: usize, page: usize) -> usize
    ensures { result ≡ min (signature_place pages station page) (2 ^ 64 - 1) }
{
    row_start(pages, station).saturating_add(page.saturating_sub(1))
}

pub(crate) fn sum_place(pages: usize, station: usize, j: usize) -> usize
    ensures { result ≡ min (sum_place pages station j) (2 ^ 64 - 1) }
{
    row_start(pages, station).saturating_add(pages.saturating_add(j.saturating_sub(1)))
}

fn row_start(pages: usize, station: usize) -> usize
    ensures { result ≡ min (Rows.row_start pages station) (2 ^ 64 - 1) }
{
    station
        .saturating_sub(1)
        .saturating_mul(pages.saturating_add(SUM_COUNT))
}

// What stands at a place; past the end, 0.
pub(crate) fn word(tally: &[u32], place: usize) -> u32
    ensures { result ≡ slice_index tally.now place }
{
    tally.get(place).copied().unwrap_or(0)
}

fn put(tally: &mut [u32], place: usize, value: u32)
    ensures { tally.new ≡ slice_set tally.old place value }
{
    if place < tally.len() {
        tally[place] = value;
    }
}
