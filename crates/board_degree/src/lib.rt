// Degrees of vertices, by the cells of the board that meet there, and the pins that they leave.
#![tactic(auto)]

ghost use Rattle.std.specs.Prelude.{◌≡◌, ◌≤◌};
ghost use Rattle.board.specs.Degree.{degree, pins};
ghost use Rattle.board.specs.View.{board_of};
ghost use Rattle.board_degree.specs.Kind.{kind_by, kind_of, degree_of_kind};

use board::{Board, Vertex};

// What a place is to the board, by how many of the board's cells meet there. Every vertex of a convex board is one of the first four.
#[derive(Clone, Copy)]
pub enum VertexKind {
    // one cell
    OuterCorner,
    // two cells, with a side in common
    StraightSide,
    // three cells
    ConcaveCorner,
    // four cells
    Inside,
    // two cells that touch at this corner only
    TouchingCorners,
    // no cell
    NoVertex,
}

// The kind of a place where so many cells meet. Where there are two: is one above and one below the place, on different sides?
fn kind_by(cells: u8, opposite: bool) -> VertexKind
    ensures { result ≡ kind_by cells opposite }
{
    match cells {
        0 => VertexKind::NoVertex,
        1 => VertexKind::OuterCorner,
        2 => {
            if opposite {
                VertexKind::TouchingCorners
            } else {
                VertexKind::StraightSide
            }
        }
        3 => VertexKind::ConcaveCorner,
        _ => VertexKind::Inside,
    }
}

// The kind of v.
pub fn kind_of(b: Board, v: Vertex) -> VertexKind
    ensures { result ≡ kind_of (board_of b) v }
{
    let al = board::above_left(b, v);
    let ar = board::above_right(b, v);
    let bl = board::below_left(b, v);
    let br = board::below_right(b, v);
    let cells = (u8::from(al) + u8::from(ar)) + (u8::from(bl) + u8::from(br));
    kind_by(cells, (al & br) | (ar & bl))
}

// The degree of a vertex of this kind.
pub fn degree_of_kind(kind: VertexKind) -> u8
    ensures { result ≡ degree_of_kind kind }
{
    match kind {
        VertexKind::OuterCorner => 2,
        VertexKind::StraightSide => 3,
        VertexKind::ConcaveCorner => 4,
        VertexKind::Inside => 4,
        VertexKind::TouchingCorners => 4,
        VertexKind::NoVertex => 0,
    }
}

// The degree of v, which is its count of edges.
pub fn degree_of(b: Board, v: Vertex) -> u8
    ensures value { result ≡ degree (board_of b) v }
    ensures upper_bound { result ≤ 4 }
{
    degree_of_kind(kind_of(b, v))
}

// The count of pins at v; a place that is no vertex has none.
pub fn pins_of(b: Board, v: Vertex) -> u8
    ensures { result ≡ pins (board_of b) v }
{
    if board::is_vertex(b, v) {
        4 - degree_of(b, v)
    } else {
        0
    }
}
