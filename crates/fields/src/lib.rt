// The three fields, by name and by number.
#![tactic(auto)]

ghost use Rattle.fields.specs.Names.{NamedBy, NumberedBy};

use std::str::FromStr;

/// Which of the three fields (docs/RULES.md, "Fields").
#[derive(Clone, Copy, PartialEq, Eq, Debug)]
pub enum FieldName {
    /// 256 elements, at most 255 pages; called `small`, number 1
    Small,
    /// 65,536 elements; called `wide`, number 2
    Wide,
    /// 65,537 elements; called `prime`, number 3
    Prime,
}

/// No field has this name or number.
#[derive(Clone, Copy, PartialEq, Eq, Debug)]
pub struct UnknownField;

/// The field that is called so, in lower case: small, wide or prime.
impl FromStr for FieldName {
    type Err = UnknownField;

    ghost from_str_gives = { NamedBy };

    fn from_str(text: &str) -> Result<FieldName, UnknownField> {
        match text {
            "small" => Ok(FieldName::Small),
            "wide" => Ok(FieldName::Wide),
            "prime" => Ok(FieldName::Prime),
            _ => Err(UnknownField),
        }
    }
}

/// The field with this number, as programs in C give it: 1 small, 2 wide, 3 prime.
impl TryFrom<u32> for FieldName {
    type Error = UnknownField;

    ghost try_from_gives = { NumberedBy };

    fn try_from(number: u32) -> Result<FieldName, UnknownField> {
        match number {
            1 => Ok(FieldName::Small),
            2 => Ok(FieldName::Wide),
            3 => Ok(FieldName::Prime),
            _ => Err(UnknownField),
        }
    }
}
