// Three theorems of every field: what the first sums of a vector of codes tell of it.
#![tactic(auto)]

ghost use Rattle.algebra.specs.Vectors.{Vanishing, Unique, Far};

/// A theorem: a vector of weight at most J whose sums 1 to J are 0 is 0.
pub fn vanishing()
    ensures { Vanishing }
{}

/// A theorem: two vectors with the same sums 1 to J are equal, if their weights add up to at most J or J is
/// at least the number of pages.
pub fn unique()
    ensures { Unique }
{}

/// A theorem: two different vectors with the same sums 1 to J have weights that add up to more than J, and
/// J is less than the number of pages.
pub fn far()
    ensures { Far }
{}
