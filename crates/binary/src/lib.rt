// The fields of 2^8 and 2^16 elements.
#![tactic(auto)]

mod binary_field;
mod modulus;
mod powers;
mod product;
mod small;
mod theorems;
mod wide;

pub use binary_field::Binary;
pub use modulus::Modulus;
pub use powers::powers_tabled;
pub use small::{Small, SmallModulus};
pub use theorems::products_are_reduced;
pub use wide::{Wide, WideModulus};
