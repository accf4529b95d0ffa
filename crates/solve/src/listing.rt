// Listing the codes that are not 0.
ghost use Rattle.std.specs.Prelude.{ℕ, ◌<◌, ◌≤◌, length};
ghost use Rattle.solve.specs.Polynomials.{at};
ghost use Rattle.solve.specs.Candidates.{pages_of, candidates_of, codes_of};
ghost use Rattle.solve.specs.Listing.{NonzerosOf};

use crate::Entry;
use crate::entries::Coded;
use crate::limits::LIST_SIZE;
use arrayvec::ArrayVec;
use field::SUM_LIMIT;

// Puts the candidates whose codes are not 0 into the list, and blank entries after them: how many.
pub(crate) fn list_nonzeros(
    coded: &ArrayVec<Coded, SUM_LIMIT>,
    list: &mut [Entry; LIST_SIZE],
) -> usize
    requires { let pages = pages_of (candidates_of coded.now.items) in
        (i j : ℕ) → i < j → j < length (candidates_of coded.now.items) → at pages i < at pages j }
    ensures fits { result < length list.new }
    ensures listed { NonzerosOf (candidates_of coded.now.items) (codes_of coded.now.items) result list.new }
{
    let coded = coded.as_slice();
    *list = [Entry { page: 0, code: 0 }; LIST_SIZE];
    // Counted by hand: after a chain that writes into the list nothing is known of what the list holds.
    let mut listed = 0;
    for term in coded {
        if term.code != 0 {
            list[listed] = Entry {
                page: term.candidate.page,
                code: term.code,
            };
            listed += 1;
        }
    }
    listed
}
