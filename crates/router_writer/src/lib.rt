// The words of a routing, written from the router's notes.
#![tactic(auto)]

ghost use Rattle.std.specs.Prelude.{◌≡◌, ◌+◌, ◌≤◌, ◌<◌, length, set};
ghost use Rattle.board.specs.Path.{number};
ghost use Rattle.words.specs.RoutingWord.{direction, path_words};
ghost use Rattle.call_rules.specs.Writing.{written_into};
ghost use Rattle.net_places.specs.Places.{nets_of};
ghost use Rattle.router_notes.specs.Limits.{pair_limit, path_limit};
ghost use Rattle.router_trace.specs.Traces.{path_of};
ghost use Rattle.router_writer.specs.Written.{directions, RunAt, Written};
ghost use Rattle.router_writer.specs.Paths.{words_of, Fits, held_words, HeldShort};

use net::{Net, Place};
use router_notes::{Notes, PAIRS, STEPS};
use words::Path;

// The number of the direction that a byte stands for: past 3 it is left.
#[tactic(auto, using(crate::specs::Steps::code_is))]
fn code_of(b: u8) -> u8
    ensures { result ≡ number (direction b) }
{
    b.min(3)
}

// Stores a word, where there is room.
fn put(out: &mut [u32], at: usize, w: u32)
    ensures { out.new ≡ set out.old at w }
{
    if at < out.len() {
        out[at] = w;
    }
}

// How many steps from `from` on go in one direction.
fn run_length(dirs: &[u8], from: usize) -> usize
    requires { from < length dirs.now }
    ensures { RunAt dirs.now from result }
{
    let d = code_of(dirs[from]);
    for n in 1..dirs.len() - from {
        if code_of(dirs[from + n]) != d {
            return n;
        }
    }
    dirs.len() - from
}

// Writes a net's path word and the run words of its directions at the start of a buffer, and answers how many words that is.
fn write_path(out: &mut [u32], net: Net, dirs: &[u8]) -> usize
    requires { length dirs.now ≤ path_limit }
    ensures { Written (path_words net (directions dirs.now)) out.old result out.new }
{
    let mut runs: usize = 0;
    let mut from: usize = 0;
    while from < dirs.len() {
        let n = run_length(dirs, from);
        let d = words::direction_of(u32::from(dirs[from]));
        put(out, runs + 1, words::run_word(d, n as u16));
        runs += 1;
        from += n;
    }
    let path = Path {
        number: net.number,
        runs: runs as u16,
    };
    put(out, 0, words::pack_path(path));
    runs + 1
}

// Writes the words of a net, whose path is that of pair k.
fn write_net(notes: &Notes, k: usize, net: Net, out: &mut [u32]) -> usize
    requires { k < pair_limit }
    ensures upper_bound { result ≤ path_limit + 1 }
    ensures written { length (path_of notes.now pair_limit k) ≤ path_limit
        → Written (path_words net (directions (path_of notes.now pair_limit k))) out.old result out.new }
{
    let mut dirs = [0u8; STEPS];
    let end = router_trace::assemble(notes, k, PAIRS, &mut dirs, 0);
    let n = end.min(STEPS);
    write_path(out, net, &dirs[..n])
}

// Writes the words of what a place holds: a net whose path is that of pair k, or nothing.
fn write_place(notes: &Notes, k: usize, number: u8, place: Place, out: &mut [u32]) -> usize
    requires { k < pair_limit }
    ensures upper_bound { result ≤ path_limit + 1 }
    ensures written { HeldShort place (path_of notes.now pair_limit k)
        → Written (held_words number place (path_of notes.now pair_limit k)) out.old result out.new }
{
    match place {
        None => 0,
        Some(ends) => {
            let net = Net { number, ends };
            write_net(notes, k, net, out)
        }
    }
}

// Writes the words of the routing that the notes give to the nets: the paths in rising number, each into the part of the buffer after the
// path before it, then the end word. Answers how many words that is.
pub fn write_paths(notes: &Notes, nets: [Place; 64], out: &mut [u32]) -> usize
    requires { Fits (path_of notes.now pair_limit) (nets_of nets) out.old }
    ensures value { result ≡ length (words_of (path_of notes.now pair_limit) (nets_of nets)) }
    ensures out_after { out.new ≡ written_into out.old (words_of (path_of notes.now pair_limit) (nets_of nets)) }
{
    let mut at: usize = 0;
    let mut k: usize = 0;
    for (i, place) in nets.iter().enumerate() {
        let start = at.min(out.len());
        let number = (i + 1) as u8;
        at += write_place(notes, k, number, *place, &mut out[start..]);
        k += usize::from(place.is_some());
    }
    put(out, at, words::pack_routing_end(k as u8));
    at + 1
}
