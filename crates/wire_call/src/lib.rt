// Two figures of the wire that a session's nets take, told before they are routed; and the room that routing asks for.
#![tactic(auto)]

ghost use Rattle.std.specs.Prelude.{◌≡◌, ◌<◌, ℕ};
ghost use Rattle.count.specs.Sum.{sum};
ghost use Rattle.board.specs.View.{board_of};
ghost use Rattle.net.specs.View.{pairs_of};
ghost use Rattle.cut.specs.Cut.{crossing};
ghost use Rattle.cut.specs.declared.Cut as cut;
ghost use Rattle.session.specs.View.{session_of};
ghost use Rattle.session_rules.specs.Sound.{Sound};
ghost use Rattle.call_rules.specs.Wire.{crossing_sum, word_limit, wire as wireOf};
ghost use Rattle.wire_call.specs.Answers.{wire_answer};

use board::Board;
use cut::Cut;
use net::Place;
use session::Session;

// The sum of crossing nets over all rows and columns, and the board's edge count.
#[derive(Clone, Copy, PartialEq, Eq)]
pub struct Figures {
    pub crossings: usize,
    pub edges: usize,
}

// Why no figures are told: the session is unsound, 20.
#[derive(Clone, Copy, PartialEq, Eq)]
pub struct Unsound;

// The nets that cross one row or column.
fn crossing_nets(b: Board, nets: [Place; 64], x: Cut) -> usize
    ensures value { result ≡ crossing x (pairs_of nets) }
    ensures upper_bound { result < 256 }
{
    let tally = cut::tally_of(b, nets, x);
    usize::from(tally.nets)
}

// The nets that cross each of the first n rows or columns, summed.
fn crossings_of<F: Fn(u8) -> Cut>(b: Board, nets: [Place; 64], n: u8, cut_at: F) -> usize
    ghost x: { ℕ → cut.Cut }
    requires can_call { (i : ℕ) → F.pre cut_at i }
    requires gives { (i : ℕ) (y : cut.Cut) → F.post cut_at i y → y ≡ x i }
    ensures value { result ≡ sum n (λ i. crossing (x i) (pairs_of nets)) }
    ensures upper_bound { result < 65536 }
{
    let mut sum: usize = 0;
    for i in 0..n {
        sum += crossing_nets(b, nets, cut_at(i));
    }
    sum
}

// The sum of crossing nets over all rows and columns.
fn crossings(b: Board, nets: [Place; 64]) -> usize
    ensures { result ≡ crossing_sum (board_of b) (pairs_of nets) }
{
    crossings_of(b, nets, b.count, Cut::Row) + crossings_of(b, nets, 31, Cut::Column)
}

// The figures of a session.
pub fn wire(s: Session) -> Result<Figures, Unsound>
    ensures { wire_answer result ≡ wireOf (session_of s) }
{
    if !s.sound() {
        return Err(Unsound);
    }
    let board = s.block.board;
    Ok(Figures {
        crossings: crossings(board, s.nets),
        edges: board_edges::edge_count(board),
    })
}

// The most words of a routing of a sound session: 1, its nets and its board's edges.
pub fn word_limit(s: Session) -> usize
    requires { Sound (session_of s) }
    ensures { result ≡ word_limit (session_of s) }
{
    1 + usize::from(net_places::count_nets(s.nets)) + board_edges::edge_count(s.block.board)
}
