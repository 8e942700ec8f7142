// Corners where a pair ends: the one pair goes along the corner's one edge, or two pairs along its two edges.
#![tactic(auto)]

ghost use Rattle.std.specs.Prelude.{◌≡◌, ◌+◌, ◌*◌, ◌≤◌, ◌<◌};
ghost use Rattle.router_notes.specs.Limits.{pair_limit, vertex_limit};
ghost use Rattle.router_table.specs.Writes.{left_by, moved};
ghost use Rattle.router_invariant.specs.Run.{bul_w};
ghost use Rattle.router_ends.specs.View.{Low, Near, TwoEnds, OneDown, OneRight, shorter, PairsKept};

use router_notes::{Lines, Notes, Table};

// Where the router stands: lines top to bottom as the shape is read, upside down where `up` holds; the count of live pairs, and the first number
// that no pair has had.
#[derive(Clone, Copy)]
pub struct Work {
    pub top: usize,
    pub bottom: usize,
    pub up: bool,
    pub n: usize,
    pub next: u16,
}

// The word of the vertex in column x of a line.
pub fn word(line: usize, x: usize) -> u16
    requires { (line < 32) × (x < 32) }
    ensures { (result ≡ line * 32 + x) × (result < vertex_limit) }
{
    (line * 32 + x) as u16
}

// The word of the vertex below, as the shape is read.
pub fn below(v: u16, up: bool) -> u16
    requires { v < vertex_limit }
    ensures { result ≡ bul_w up v }
{
    if up { v.saturating_sub(32) } else { v + 32 }
}

// A line loses its first vertex, in column x.
pub fn shorten(lines: &mut Lines, line: usize, x: usize)
    requires { (line < 32) × (x < 32) }
    ensures { lines.new ≡ shorter lines.old line x }
{
    lines.first[line] = (x + 1) as u8;
}

// The end of row i leaves the corner; s and v are noted there.
fn slide(table: &mut Table, notes: &mut Notes, i: usize, from: u16, to: u16, s: u16, v: u16)
    requires { (i < pair_limit) × (from < vertex_limit) }
    ensures moved { table.new ≡ moved table.old i from to }
    ensures left { notes.new ≡ left_by notes.old from s v }
{
    let ul = usize::from(from);
    notes.side[ul] = s;
    notes.vert[ul] = v;
    router_table::move_end(table, i, from, to);
}

// Two edges and an end at the corner, that of row i: there is a second one, and the two part.
pub fn two_ends(
    table: &mut Table,
    notes: &mut Notes,
    lines: &mut Lines,
    w: Work,
    i: usize,
    line: usize,
    x: usize,
) -> Option<Work>
    requires { (i < w.n) × (w.n < pair_limit) × (line < 32) × (x < 32) × Low table.old.number × (w.top ≤ 31) × (w.bottom ≤ 31) }
    ensures two_ends { TwoEnds table.old notes.old lines.old w i line x
        table.new notes.new lines.new result }
    ensures near { Near w result }
    ensures kept { PairsKept table.old notes.old lines.old table.new notes.new lines.new }
{
    let from = word(line, x);
    let j = router_table::first_at(table, from, i + 1, w.n);
    if j == w.n {
        return None;
    }
    let bul = below(from, w.up);
    let s = usize::from(router_table::far(table, i, from));
    let t = usize::from(router_table::far(table, j, from));
    let (right, down) = if router_table::swaps(s, t, line, x) {
        (j, i)
    } else {
        (i, j)
    };
    let up = u16::from(w.up);
    router_table::split(
        table,
        notes,
        right,
        down,
        line * 32 + x,
        from,
        from + 1,
        bul,
        up,
    );
    shorten(lines, line, x);
    Some(w)
}

// A corner without a right neighbour: the one pair that ends there, row i, goes down.
pub fn go_down(
    table: &mut Table,
    notes: &mut Notes,
    lines: &Lines,
    w: Work,
    i: usize,
    line: usize,
    x: usize,
) -> Option<Work>
    requires { (i ≤ w.n) × (w.n < pair_limit) × (line < 32) × (x < 32) × Low table.old.number × (w.top < w.bottom) × (w.bottom ≤ 31) }
    ensures one_down { OneDown table.old notes.old lines.now w i line x
        table.new notes.new result }
    ensures near { Near w result }
    ensures kept { PairsKept table.old notes.old lines.now table.new notes.new lines.now }
{
    if x != usize::from(lines.last[line]) || i == w.n {
        return None;
    }
    let from = word(line, x);
    let to = below(from, w.up);
    let v = 2 * table.number[i] + 2 + u16::from(w.up);
    slide(table, notes, i, from, to, 0, v);
    Some(Work {
        top: w.top + 1,
        ..w
    })
}

// A single line: the one pair that ends at the corner, row i, goes right.
pub fn go_right(
    table: &mut Table,
    notes: &mut Notes,
    lines: &mut Lines,
    w: Work,
    i: usize,
    line: usize,
    x: usize,
) -> Option<Work>
    requires { (i ≤ w.n) × (w.n < pair_limit) × (line < 32) × (x < 32) × Low table.old.number × (w.top ≤ 31) × (w.bottom ≤ 31) }
    ensures one_right { OneRight table.old notes.old lines.old w i line x
        table.new notes.new lines.new result }
    ensures near { Near w result }
    ensures kept { PairsKept table.old notes.old lines.old table.new notes.new lines.new }
{
    if w.top != w.bottom || usize::from(lines.last[line]) <= x || i == w.n {
        return None;
    }
    let from = word(line, x);
    let s = table.number[i] + 1;
    slide(table, notes, i, from, from + 1, s, 0);
    shorten(lines, line, x);
    Some(w)
}
