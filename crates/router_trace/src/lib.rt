// The path of a pair, read off the router's notes, as bytes: 0 up, 1 right, 2 down, 3 left.
// Every function answers for any notes; what finds no room is not written.
#![tactic(auto)]

ghost use Rattle.std.specs.Prelude.{◌≡◌, [], ◌∷◌, ◌≤◌, ◌<◌};
ghost use Rattle.router_notes.specs.Limits.{pair_limit};
ghost use Rattle.router_notes.specs.Arrays.{hop_at, hop_d};
ghost use Rattle.router_trace.specs.Hops.{line_d, column_d, opp_d, Hop, InFrame};
ghost use Rattle.router_trace.specs.Traces.{fore_d, back_d, path_of};
ghost use Rattle.router_trace.specs.Writes.{Writes};

use router_notes::{LAST_PAIR, Notes, STEPS};

// The move of pair k from a vertex with these two notes, if there is one.
#[tactic(auto, unfolding(router_notes::specs::Arrays::hop_at))]
fn hop_at(s: usize, v: usize, k: usize) -> Option<u8>
    requires { k < pair_limit }
    ensures { Hop (hop_at s v k) result }
{
    if s == k + 1 {
        Some(1)
    } else if v == 2 * k + 2 {
        Some(2)
    } else if v == 2 * k + 3 {
        Some(0)
    } else {
        None
    }
}

// The move of pair k from line l and column c.
#[tactic(auto, unfolding(router_notes::specs::Arrays::hop_d))]
fn hop(notes: &Notes, k: usize, l: usize, c: usize) -> Option<u8>
    requires { k < pair_limit }
    ensures hop { Hop (hop_d notes.now.side notes.now.vert k l c) result }
    ensures frame { InFrame l c result }
{
    if 32 <= l || 32 <= c {
        return None;
    }
    let v = l * 32 + c;
    hop_at(usize::from(notes.side[v]), usize::from(notes.vert[v]), k)
}

// The line after a move.
#[tactic(auto, unfolding(crate::specs::Hops::line_d))]
fn line_after(d: u8, l: usize) -> usize
    requires { l < 32 }
    ensures { result ≡ line_d d l }
{
    match d {
        2 => l + 1,
        0 => l.saturating_sub(1),
        _ => l,
    }
}

// The column after a move; an end never moves to the left.
#[tactic(auto, unfolding(crate::specs::Hops::column_d))]
fn column_after(d: u8, c: usize) -> usize
    requires { c < 32 }
    ensures { result ≡ column_d d c }
{
    if d == 1 { c + 1 } else { c }
}

// The same move, passed the other way.
#[tactic(auto, unfolding(crate::specs::Hops::opp_d))]
fn opposite(d: u8) -> u8
    requires { d < 4 }
    ensures { result ≡ opp_d d }
{
    (d + 2) % 4
}

// Writes one direction.
// Kept: a buffer and a place in it, since there is no heap.
fn put(out: &mut [u8; STEPS], at: usize, d: u8) -> usize
    ensures { Writes (d ∷ []) at out.old result out.new }
{
    if at < STEPS {
        out[at] = d;
        return at + 1;
    }
    at
}

// Writes the moves of pair k's end that stands at line l and column c, from `at` on.
fn fore(
    notes: &Notes,
    k: usize,
    fuel: usize,
    l: usize,
    c: usize,
    out: &mut [u8; STEPS],
    at: usize,
) -> usize
    requires { k < pair_limit }
    ensures { Writes (fore_d notes.now.side notes.now.vert k fuel l c) at out.old result out.new }
{
    if fuel == 0 {
        return at;
    }
    let Some(d) = hop(notes, k, l, c) else {
        return at;
    };
    let next = put(out, at, d);
    fore(
        notes,
        k,
        fuel - 1,
        line_after(d, l),
        column_after(d, c),
        out,
        next,
    )
}

// Writes them backwards: those from the next vertex on first.
fn back(
    notes: &Notes,
    k: usize,
    fuel: usize,
    l: usize,
    c: usize,
    out: &mut [u8; STEPS],
    at: usize,
) -> usize
    requires { k < pair_limit }
    ensures { Writes (back_d notes.now.side notes.now.vert k fuel l c) at out.old result out.new }
{
    if fuel == 0 {
        return at;
    }
    let Some(d) = hop(notes, k, l, c) else {
        return at;
    };
    let end = back(
        notes,
        k,
        fuel - 1,
        line_after(d, l),
        column_after(d, c),
        out,
        at,
    );
    put(out, end, opposite(d))
}

// Writes the path of pair k: its first end's moves, its halves with the two moves between them, its second end's moves backwards.
// A half has fewer later divisions than the pair.
pub fn assemble(notes: &Notes, k: usize, later: usize, out: &mut [u8; STEPS], at: usize) -> usize
    requires { k < pair_limit }
    ensures { Writes (path_of notes.now later k) at out.old result out.new }
{
    if later == 0 {
        return at;
    }
    let a = usize::from(notes.start[k]);
    let b = usize::from(notes.end[k]);
    let h = usize::from(notes.half[k]);
    let mut end = fore(notes, k, STEPS, a / 32, a % 32, out, at);
    if 0 < h && h < LAST_PAIR {
        end = assemble(notes, h, later - 1, out, end);
        end = put(out, end, notes.to_corner[k]);
        end = put(out, end, notes.from_corner[k]);
        end = assemble(notes, h + 1, later - 1, out, end);
    }
    back(notes, k, STEPS, b / 32, b % 32, out, end)
}
