// Seeking a pair of stations.
ghost use Rattle.std.specs.Prelude.{false, true};
ghost use Rattle.pairs.specs.Seeking.{FirstPair, FirstAfter};

// The first pair s < t of the stations that passes, in the order of s and then of t.
pub(crate) fn first_pair<P: Fn(usize, usize) -> bool>(
    stations: usize,
    passes: P,
) -> Option<(usize, usize)>
    requires { P.IsAlwaysCallable passes }
    ensures { FirstPair stations (λ s t. P.post passes s t true) (λ s t. P.post passes s t false) result }
{
    for s in 1..=stations {
        if let Some(t) = first_after(stations, s, &passes) {
            return Some((s, t));
        }
    }
    None
}

// The lowest station above s that passes with it.
fn first_after<P: Fn(usize, usize) -> bool>(stations: usize, s: usize, passes: &P) -> Option<usize>
    requires { P.IsAlwaysCallable passes.now }
    ensures { FirstAfter stations s (λ t. P.post passes.now s t true) (λ t. P.post passes.now s t false) result }
{
    (1..=stations).find(|t| s < *t && passes(s, *t))
}
