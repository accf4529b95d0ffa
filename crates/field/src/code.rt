// Words and codes.
ghost use Rattle.field.specs.Field.{Modular};

use crate::Field;

/// A theorem of every field: each call counts its words modulo the size.
pub fn words_count_modulo<F: Field>()
    ensures { Modular F.Field.ops }
{}
