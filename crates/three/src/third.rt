// Who is asked again of three stations.
ghost use Rattle.std.specs.Prelude.{◌≡◌, ◌≤◌};
ghost use Rattle.scheme.specs.Three;

// Who is compared with station 1 anew: the station outside the pair, and 2 for the pair of 2 and 3.
pub(crate) fn third(first: usize, second: usize) -> usize
    requires { second ≤ 3 }
    ensures { result ≡ Three.third first second }
{
    if first == 1 { 5 - second } else { 2 }
}
