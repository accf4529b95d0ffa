// Solving a difference for programs in C and Rust.
ghost use Rattle.host.specs.Ending.{EndsIn};
ghost use Rattle.host.specs.Solving.{Solves};

use crate::status::{DONE, NO_FIELD, NONE, refuse};
use binary::{Small, Wide};
use field::Field;
use fields::FieldName;
use prime::Prime;
use solve::Entry;

// Solves in the field with this number: 1 small, 2 wide, 3 prime.
// Returns 0: solved, `count` pages in the list. 254: there is no solution. 255: no such field. Else the refusal's number, with its place.
#[unsafe(no_mangle)]
pub extern "C" fn wulambey_solve(
    field: u32,
    pages: usize,
    values: &[u32],
    weight: usize,
    list: &mut [Entry; 129],
    count: &mut usize,
    place: &mut usize,
) -> u32
    ensures { EndsIn field (λ f. Solves f pages weight values.now)
        (record { filled = record { list = list.old; count = count.old }; place = place.old })
        (record { filled = record { list = list.new; count = count.new }; place = place.new }) result }
{
    match FieldName::try_from(field) {
        Ok(FieldName::Small) => solve_in::<Small>(pages, values, weight, list, count, place),
        Ok(FieldName::Wide) => solve_in::<Wide>(pages, values, weight, list, count, place),
        Ok(FieldName::Prime) => solve_in::<Prime>(pages, values, weight, list, count, place),
        Err(_) => NO_FIELD,
    }
}

fn solve_in<F: Field>(
    pages: usize,
    values: &[u32],
    weight: usize,
    list: &mut [Entry; 129],
    count: &mut usize,
    place: &mut usize,
) -> u32
    ensures { Solves F.Field.ops pages weight values.now
        (record { filled = record { list = list.old; count = count.old }; place = place.old })
        (record { filled = record { list = list.new; count = count.new }; place = place.new }) result }
{
    match solve::solve::<F>(pages, values, weight, list) {
        Ok(Some(listed)) => {
            *count = listed;
            DONE
        }
        Ok(None) => NONE,
        Err(refusal) => refuse(refusal, place),
    }
}
