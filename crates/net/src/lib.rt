// Nets on a board: their terminals, and the 64 numbers that a session keeps them by.
#![tactic(auto)]

ghost use Rattle.std.specs.Prelude.{◌≡◌, ◌≤◌};
ghost use Rattle.net.specs.Terminals.{ends, terminals};
ghost use Rattle.net.specs.View.{held_ends, pairs_of};

use board::Vertex;

// Two vertices that a path is to join: the first and the second terminal of a net.
#[derive(Clone, Copy, PartialEq, Eq)]
pub struct Pair {
    pub first: Vertex,
    pub second: Vertex,
}

// A net: a number and its terminals.
#[derive(Clone, Copy, PartialEq, Eq)]
pub struct Net {
    pub number: u8,
    pub ends: Pair,
}

// A change of a session: the net that was added or withdrawn.
#[derive(Clone, Copy, PartialEq, Eq)]
pub enum Change {
    Added(Net),
    Withdrawn(Net),
}

// The place of one number, with the terminals of its net, if it is held; number n has place n - 1 of 64.
pub type Place = Option<Pair>;

// How many of the two terminals stand at v.
pub fn ends_at(p: Pair, v: Vertex) -> u8
    ensures value { result ≡ ends p v }
    ensures upper_bound { result ≤ 2 }
{
    u8::from(p.first == v) + u8::from(p.second == v)
}

// The same of what a place holds.
fn held_ends(place: Place, v: Vertex) -> u8
    ensures value { result ≡ held_ends v place }
    ensures upper_bound { result ≤ 2 }
{
    place.map_or(0, |p| ends_at(p, v))
}

// How many terminals of the nets stand at v.
pub fn terminals_at(nets: [Place; 64], v: Vertex) -> u8
    ensures value { result ≡ terminals (pairs_of nets) v }
    ensures upper_bound { result ≤ 128 }
{
    let mut n = 0;
    for place in &nets {
        n += held_ends(*place, v);
    }
    n
}
