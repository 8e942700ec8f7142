// How many edges a board has.
#![tactic(auto)]

ghost use Rattle.std.specs.Prelude.{◌≡◌, ◌<◌};
ghost use Rattle.board.specs.Board.{Within};
ghost use Rattle.board.specs.Path.{Convex};
ghost use Rattle.board.specs.View.{board_of};
ghost use Rattle.board_convex.specs.Form.{width};
ghost use Rattle.board_edges.specs.EdgeCount.{edge_count};

use board::Board;

// How wide row i is.
fn width_of(b: Board, i: u8) -> u8
    requires { Within (board_of b) × (i < b.count) }
    ensures { result ≡ width (board_of b) i }
{
    let rows = b.rows;
    let row = rows[usize::from(i)];
    row.right - row.left
}

// The edges of a convex board: for each row twice its width and one more, and the width of the widest besides.
pub fn edge_count(b: Board) -> usize
    requires { Within (board_of b) × Convex (board_of b) }
    ensures { result ≡ edge_count (board_of b) }
{
    let rows = b.count;
    let mut edges: usize = 0;
    let mut widest: u8 = 0;
    for i in 0..rows {
        let width = width_of(b, i);
        edges += 2 * usize::from(width) + 1;
        widest = widest.max(width);
    }
    edges + usize::from(widest)
}
