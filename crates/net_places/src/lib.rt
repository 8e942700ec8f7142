// The 64 places of a session's nets. Every function is total: it answers for any value.
#![tactic(auto)]

ghost use Rattle.std.specs.Prelude.{◌≡◌, ◌≤◌, length};
ghost use Rattle.session_rules.specs.Session.{holds, recorded};
ghost use Rattle.net_places.specs.Numbered.{replaced, index_of};
ghost use Rattle.net_places.specs.Places.{nets_of, held_one, place_at, holding, reversed_in};

use net::{Change, Net, Pair, Place};

// The index of what has this number; that of number 0 is past the end.
pub fn index_of(number: u8) -> usize
    ensures { result ≡ index_of number }
{
    if 0 < number {
        usize::from(number - 1)
    } else {
        255
    }
}

// The place of a number, an empty one for a number that is not 1 to 64.
pub fn place_of(nets: [Place; 64], number: u8) -> Place
    ensures { result ≡ place_at nets number }
{
    nets.get(index_of(number)).copied().flatten()
}

// The places with that of a number replaced; the same places for a number that is not 1 to 64.
pub fn stored(nets: [Place; 64], number: u8, place: Place) -> [Place; 64]
    ensures { result ≡ replaced nets number place }
{
    let mut next = nets;
    let at = index_of(number);
    if at < 64 {
        next[at] = place;
    }
    next
}

// Is a net of this number held?
pub fn is_held(nets: [Place; 64], number: u8) -> bool
    ensures { result ≡ holds number (nets_of nets) }
{
    place_of(nets, number).is_some()
}

// Is this net held, with this number and these terminals?
pub fn is_recorded(nets: [Place; 64], net: Net) -> bool
    ensures { result ≡ recorded net (nets_of nets) }
{
    Some(net.ends) == place_of(nets, net.number)
}

// The place that holds a net's terminals.
pub fn holding(ends: Pair) -> Place
    ensures { result ≡ holding ends }
{
    Some(ends)
}

// The places once a change is reversed: an added net leaves, a withdrawn net returns with its terminals.
pub fn reversed(nets: [Place; 64], change: Change) -> [Place; 64]
    ensures { result ≡ reversed_in change nets }
{
    match change {
        Change::Added(net) => stored(nets, net.number, None),
        Change::Withdrawn(net) => stored(nets, net.number, Some(net.ends)),
    }
}

// 1 for a place that holds a net, 0 for an empty one.
pub fn held_one(place: Place) -> u8
    ensures value { result ≡ held_one place }
    ensures upper_bound { result ≤ 1 }
{
    u8::from(place.is_some())
}

// How many nets there are.
pub fn count_nets(nets: [Place; 64]) -> u8
    ensures { result ≡ length (nets_of nets) }
{
    let mut n = 0;
    for place in &nets {
        n += held_one(*place);
    }
    n
}
