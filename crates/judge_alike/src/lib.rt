// Two routings are alike when each net uses the same set of edges in both: their maps of used edges have the same net at every slot.
#![tactic(auto)]

ghost use Rattle.std.specs.Prelude.{◌≡◌};
ghost use Rattle.judge_alike.specs.MapsAlike.{maps_alike};

// Does the same net, or none, use each edge in two maps?
pub fn is_alike(first: &[u8; 2048], second: &[u8; 2048]) -> bool
    ensures { result ≡ maps_alike first.now second.now }
{
    let mut same = true;
    for (one, two) in first.iter().zip(second) {
        same &= one == two;
    }
    same
}
