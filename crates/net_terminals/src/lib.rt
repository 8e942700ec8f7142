// Terminals counted once for all vertices: how many stand at each, that of line l and column c at place l * 32 + c.
#![tactic(auto)]

ghost use Rattle.std.specs.Prelude.{◌≡◌};
ghost use Rattle.net.specs.View.{pairs_of};
ghost use Rattle.net.specs.Grid.{changed_at};
ghost use Rattle.net_terminals.specs.Counts.{raised, count_held, Counts};

use board::Vertex;
use net::Place;

// One more, as far as a byte goes.
fn raised(n: u8) -> u8
    ensures { result ≡ raised n }
{
    if n < 255 { n + 1 } else { n }
}

// Counts a terminal at v; one outside lines and columns 0 to 31 is not counted.
fn count_at(v: Vertex, counts: &mut [u8; 1024])
    ensures { counts.new ≡ changed_at raised v.line v.column counts.old }
{
    if v.line < 32 {
        if v.column < 32 {
            let at = usize::from(v.line) * 32 + usize::from(v.column);
            counts[at] = raised(counts[at]);
        }
    }
}

// Counts both terminals of what a place holds.
fn count_place(place: Place, counts: &mut [u8; 1024])
    ensures { counts.new ≡ count_held place counts.old }
{
    match place {
        None => {}
        Some(ends) => {
            count_at(ends.first, counts);
            count_at(ends.second, counts);
        }
    }
}

// How many terminals of the nets stand at each vertex.
pub fn count_terminals(nets: [Place; 64]) -> [u8; 1024]
    ensures { Counts (pairs_of nets) result }
{
    let mut counts = [0u8; 1024];
    for place in &nets {
        count_place(*place, &mut counts);
    }
    counts
}
