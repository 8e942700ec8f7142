// Helper pairs for boards with odd vertices: the search for a pairing of these vertices that leaves no cut overfull.
#![tactic(auto)]

ghost use Rattle.std.specs.Prelude.{◌≡◌, Some, List, [], ◌++◌, map, ◌+◌, ◌≤◌, ◌<◌, length, get_or, set};
ghost use Rattle.std.proofs.Math.Option.{some};
ghost use Rattle.count.specs.Lists.{up_to, select};
ghost use Rattle.board.specs.Board.{at};
ghost use Rattle.board.specs.View.{board_of};
ghost use Rattle.board.specs.declared.Vertex as vertex;
ghost use Rattle.net.specs.View.{pairs_of};
ghost use Rattle.net.specs.declared.Pair as pair;
ghost use Rattle.net_terminals.specs.Counts.{Counts};
ghost use Rattle.cut.specs.Cut.{overfull_cuts};
ghost use Rattle.cut.specs.Odd.{odd?, odd_vertices};
ghost use Rattle.pairing_search.specs.View.{
  cut_at,
  Left,
  Lowers,
  put_pair,
  found_of,
  Pairs,
  no_odds,
  put_odd,
  odds_of,
  Few,
  Helps,
};

use board::{Board, Vertex};
use cut::Cut;
use net::{Pair, Place};

// Helper pairs, the first `count` of six.
// Kept: an array with its count, since the library has no heap.
#[derive(Clone, Copy)]
pub struct HelperPairs {
    pub count: usize,
    pub pairs: [Pair; 6],
}

// Odd vertices in reading order, in the last `count` of twelve places.
// Kept: an array with its count, since the library has no heap.
#[derive(Clone, Copy)]
pub struct Odds {
    pub count: usize,
    pub list: [Vertex; 12],
}

// The cut of a number: columns 0 to 30, then rows.
fn cut_at(i: u8) -> Cut
    ensures { result ≡ cut_at i }
{
    if i < 31 {
        Cut::Column(i)
    } else {
        Cut::Row(i - 31)
    }
}

// What is left at the first m cuts with one pair more; none where the pair crosses a cut with no edge left.
fn slack_with(left: [u8; 62], m: u8, p: Pair) -> Option<[u8; 62]>
    requires { m ≤ 62 }
    ensures { Lowers p m left result }
{
    let mut rest = left;
    for i in 0..m {
        let used = u8::from(cut::is_crossing(cut_at(i), p));
        let at = usize::from(i);
        rest[at] = rest[at].checked_sub(used)?;
    }
    Some(rest)
}

// No pairs, where there is nothing to pair.
fn no_helpers() -> HelperPairs
    ensures { Some result ≡ found_of (some []) }
{
    let nowhere = Vertex { line: 0, column: 0 };
    let none = Pair {
        first: nowhere,
        second: nowhere,
    };
    HelperPairs {
        count: 0,
        pairs: [none; 6],
    }
}

// One pair more behind those found.
fn with_pair(found: HelperPairs, p: Pair) -> HelperPairs
    requires { found.count < 6 }
    ensures { result ≡ put_pair p found }
{
    let mut pairs = found.pairs;
    pairs[found.count] = p;
    HelperPairs {
        count: found.count + 1,
        pairs,
    }
}

// The vertices with that at place k taken out: the one at place `from` moves to its place.
fn others(vs: [Vertex; 12], from: usize, k: usize) -> [Vertex; 12]
    requires { (from < 12) × (k < 12) }
    ensures { result ≡ set vs k (get_or vs from (at 0 0)) }
{
    let mut rest = vs;
    rest[k] = vs[from];
    rest
}

// Pairs for the last n of the vertices, where so much is left at the m cuts; none where the search finds none.
// Kept: n and the vertices, m and what is left apart, as the clauses Pairs and Lowers name them.
fn pair_up(n: usize, vs: [Vertex; 12], m: u8, left: [u8; 62]) -> Option<HelperPairs>
    requires { (n ≤ 12) × (m ≤ 62) }
    ensures { Pairs n vs m left result }
{
    if n == 0 {
        return Some(no_helpers());
    }
    let from = 12 - n;
    for k in from + 1..12 {
        let p = Pair {
            first: vs[from],
            second: vs[k],
        };
        if let Some(rest) = slack_with(left, m, p) {
            if let Some(found) = pair_up(n - 2, others(vs, from + 1, k), m, rest) {
                return Some(with_pair(found, p));
            }
        }
    }
    None
}

// What the nets leave at each cut of the board, where no cut is overfull.
fn slack_of(b: Board, nets: [Place; 64]) -> [u8; 62]
    requires { (b.count ≤ 31) × (overfull_cuts (board_of b) (pairs_of nets) ≡ []) }
    ensures { Left (board_of b) (pairs_of nets) (31 + b.count) result }
{
    let mut left = [0u8; 62];
    for i in 0..31 + b.count {
        let tally = cut::tally_of(b, nets, cut_at(i));
        left[usize::from(i)] = tally.edges - tally.nets;
    }
    left
}

// No odd vertices.
pub fn no_odds() -> Odds
    ensures { result ≡ no_odds }
{
    let nowhere = Vertex { line: 0, column: 0 };
    Odds {
        count: 0,
        list: [nowhere; 12],
    }
}

// The vertices with one more in front; none where they are twelve.
fn with_vertex(o: Odds, v: Vertex) -> Option<Odds>
    ensures { result ≡ put_odd v (Some o) }
{
    let mut list = o.list;
    if o.count < 12 {
        list[11 - o.count] = v;
        Some(Odds {
            count: o.count + 1,
            list,
        })
    } else {
        None
    }
}

// The vertices with the odd ones of a line in front, from its last column back; none where they are more than twelve.
fn with_line(b: Board, counts: [u8; 1024], line: u8, o: Odds) -> Option<Odds>
    requires { line < 32 }
    ensures { (ps : List pair.Pair) (vs : List vertex.Vertex) → Counts ps counts → Some o ≡ odds_of vs
        → result ≡ odds_of (select (odd? (board_of b) ps) (map (at line) (up_to 32)) ++ vs) }
{
    let mut odds = o;
    for column in (0..cut::columns_of(b, line)).rev() {
        let v = Vertex { line, column };
        let terminals = counts[usize::from(line) * 32 + usize::from(column)];
        if cut_search::is_odd(b, terminals, v) {
            odds = with_vertex(odds, v)?;
        }
    }
    Some(odds)
}

// The odd vertices, from the last line up, on the lines and columns that the board has; none where they are more than twelve.
pub fn odd_vertices(b: Board, nets: [Place; 64]) -> Option<Odds>
    ensures { result ≡ odds_of (odd_vertices (board_of b) (pairs_of nets)) }
{
    let counts = net_terminals::count_terminals(nets);
    let mut odds = no_odds();
    for line in (0..cut::lines_of(b)).rev() {
        odds = with_line(b, counts, line, odds)?;
    }
    Some(odds)
}

// Helper pairs for the odd vertices of a board with no overfull cut, if there are any that leave no cut overfull. Where no vertex is odd,
// nothing is counted.
pub fn helpers_of(b: Board, nets: [Place; 64], odds: Odds) -> Option<HelperPairs>
    requires count_bound { (b.count ≤ 31) × (overfull_cuts (board_of b) (pairs_of nets) ≡ []) }
    requires few { Few (odd_vertices (board_of b) (pairs_of nets)) odds }
    ensures { Helps (board_of b) (pairs_of nets) result }
{
    if odds.count == 0 {
        return Some(no_helpers());
    }
    let left = slack_of(b, nets);
    pair_up(odds.count, odds.list, 31 + b.count, left)
}
