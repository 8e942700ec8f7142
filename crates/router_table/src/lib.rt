// Scans over the table of live pairs, and the writes of each corner step.
#![tactic(auto)]

ghost use Rattle.std.specs.Prelude.{◌≡◌, cond, ◌+◌, ◌-◌, ◌*◌, ◌%◌, ◌≤◌, ◌<◌, get_or, set, eqb};
ghost use Rattle.corner.specs.Pairs.{apart};
ghost use Rattle.router_notes.specs.Limits.{pair_limit, last_pair, vertex_limit};
ghost use Rattle.router_table.specs.Scans.{First, cross_d, leave_d, seen_d, depth_d, Least, swap_d};
ghost use Rattle.router_table.specs.Writes.{far_end, moved, Split, divided, divided_notes, added, dropped};

use router_notes::{Notes, Table};

// The first row from `from` on that has an end at v, or n.
// Kept: n, and not None, where there is no such row: `Step` and `Stuck` of router_invariant speak of the row so.
#[tactic(auto, using(crate::specs::ScanLaws::clear_more))]
pub fn first_at(table: &Table, v: u16, from: usize, n: usize) -> usize
    requires { (from ≤ n) × (n ≤ pair_limit) }
    ensures { First table.now.first table.now.second v from n result }
{
    for i in from..n {
        if table.first[i] == v || table.second[i] == v {
            return i;
        }
    }
    n
}

// How many pairs cross the column cut x.
// Kept: the rows by their numbers, here and below: both ends of a row are read, and `zip` and `take` are no plainer.
pub fn crossing(table: &Table, n: usize, x: usize) -> usize
    requires { n ≤ pair_limit }
    ensures { result ≡ cross_d table.now.first table.now.second x n }
{
    let mut count: usize = 0;
    for i in 0..n {
        let a = usize::from(table.first[i]) % 32 <= x;
        let b = usize::from(table.second[i]) % 32 <= x;
        count += usize::from(a != b);
    }
    count
}

// How many pairs have just one end on line l.
pub fn leaving(table: &Table, n: usize, l: usize) -> usize
    requires { n ≤ pair_limit }
    ensures { result ≡ leave_d table.now.first table.now.second l n }
{
    let mut count: usize = 0;
    for i in 0..n {
        let a = usize::from(table.first[i]) / 32 == l;
        let b = usize::from(table.second[i]) / 32 == l;
        count += usize::from(a != b);
    }
    count
}

// Line l as the shape is read, and back.
pub fn seen(up: bool, l: usize) -> usize
    ensures value { result ≡ seen_d up l }
    ensures low { l ≤ 31 → result ≤ 31 }
{
    if up { 31usize.saturating_sub(l) } else { l }
}

// The line, as the shape is read, of the right end of a pair that crosses the column cut x; 32 where it does not cross.
#[tactic(auto, unfolding(crate::specs::Scans::depth_d))]
fn depth(a: usize, b: usize, x: usize, up: bool) -> usize
    ensures { result ≡ depth_d a b x up }
{
    match (a % 32 <= x, b % 32 <= x) {
        (true, false) => seen(up, b / 32),
        (false, true) => seen(up, a / 32),
        _ => 32,
    }
}

// Of the rows that cross the column cut x, one whose right end has the least line; n if there is none.
pub fn least(table: &Table, n: usize, x: usize, up: bool) -> usize
    requires { n ≤ pair_limit }
    ensures { Least table.now.first table.now.second n x up result }
{
    let mut best = n;
    let mut line: usize = 32;
    for i in 0..n {
        let a = usize::from(table.first[i]);
        let b = usize::from(table.second[i]);
        let d = depth(a, b, x, up);
        if d < line {
            best = i;
            line = d;
        }
    }
    best
}

// The other end of row i, one of whose ends stands at `from`.
pub fn far(table: &Table, i: usize, from: u16) -> u16
    requires { i < pair_limit }
    ensures { result ≡ far_end table.now i from }
{
    if table.first[i] == from {
        table.second[i]
    } else {
        table.first[i]
    }
}

// Of two pairs with an end at the corner and far ends s and t: does the second go right?
#[tactic(auto, unfolding(crate::specs::Scans::swap_d))]
pub fn swaps(s: usize, t: usize, line: usize, x: usize) -> bool
    ensures { result ≡ swap_d s t line x }
{
    match (s / 32 == line, t / 32 == line) {
        (true, false) => false,
        (false, true) => true,
        _ => s % 32 <= x,
    }
}

// The end of row i that stands at `from` moves to `to`.
pub fn move_end(table: &mut Table, i: usize, from: u16, to: u16)
    requires { i < pair_limit }
    ensures { table.new ≡ moved table.old i from to }
{
    if table.first[i] == from {
        table.first[i] = to;
    } else {
        table.second[i] = to;
    }
}

// Two ends stand at the corner: row i's goes sideways, row j's goes down, or up where `up` is 1.
pub fn split(
    table: &mut Table,
    notes: &mut Notes,
    i: usize,
    j: usize,
    ul: usize,
    from: u16,
    nul: u16,
    bul: u16,
    up: u16,
)
    requires { (i < pair_limit) × (j < pair_limit) × (ul < vertex_limit) × (up ≤ 1) × (get_or table.old.number i 0 < 4096)
        × (get_or table.old.number j 0 < 4096) }
    ensures { Split table.old notes.old i j ul from nul bul up table.new notes.new }
{
    notes.side[ul] = table.number[i] + 1;
    notes.vert[ul] = 2 * table.number[j] + 2 + up;
    move_end(table, i, from, nul);
    move_end(table, j, from, bul);
}

// The numbers of pair k, which is divided, and of its halves: where the halves start and end, and the two directions at the corner.
pub fn part(notes: &mut Notes, k: usize, next: u16, a: u16, b: u16, x: u16, y: u16, dx: u8, dy: u8)
    requires { (k < pair_limit) × (next < last_pair) }
    ensures { notes.new ≡ divided_notes notes.old k next a b x y dx dy }
{
    let m = usize::from(next);
    notes.half[k] = next;
    notes.start[m] = a;
    notes.start[m + 1] = y;
    notes.end[m] = x;
    notes.end[m + 1] = b;
    notes.to_corner[k] = dx;
    notes.from_corner[k] = dy;
}

// Row i ends at x now and has the number `next`; a row n from y to its old end is added, with the number after that.
pub fn divide(table: &mut Table, i: usize, n: usize, next: u16, x: u16, y: u16)
    requires { (i < pair_limit) × (n < pair_limit) × (next < last_pair) }
    ensures { table.new ≡ divided table.old i n next x y }
{
    let b = table.second[i];
    table.second[i] = x;
    table.number[i] = next;
    add(table, n, next + 1, y, b);
}

// A row n from x to y is added.
pub fn add(table: &mut Table, n: usize, next: u16, x: u16, y: u16)
    requires { n < pair_limit }
    ensures { table.new ≡ added table.old n next x y }
{
    table.first[n] = x;
    table.second[n] = y;
    table.number[n] = next;
}

// Row m takes the place of row i.
pub fn drop_row(table: &mut Table, i: usize, m: usize)
    requires { (i < pair_limit) × (m < pair_limit) }
    ensures { table.new ≡ dropped table.old i m }
{
    table.first[i] = table.first[m];
    table.second[i] = table.second[m];
    table.number[i] = table.number[m];
}
