// Boards: rows of unit cells, their vertices and edges. Every function is total: it answers for any value, within the limits or not.
#![tactic(auto)]

ghost use Rattle.std.specs.Prelude.{◌≡◌, ◌-◌, ◌≤◌, get_or};
ghost use Rattle.count.specs.Truth.{one, Decides};
ghost use Rattle.board.specs.Board.{no_row, right, IsVertex, IsEdge};
ghost use Rattle.board.specs.Path.{along, number};
ghost use Rattle.board.specs.Degree.{cell?, below_right, below_left, above_right, above_left, vertex?, edge?};
ghost use Rattle.board.specs.View.{board_of};

// A row of unit cells, from column left to column right.
#[derive(Clone, Copy, PartialEq, Eq)]
pub struct Row {
    pub left: u8,
    pub right: u8,
}

// A board: its first `count` rows, from the top. What stands in the other places plays no part.
#[derive(Clone, Copy)]
pub struct Board {
    pub count: u8,
    pub rows: [Row; 31],
}

// The place where a line and a column meet. One comes before another in reading order: line by line and column by column.
#[derive(Clone, Copy, PartialEq, Eq, PartialOrd, Ord)]
pub struct Vertex {
    pub line: u8,
    pub column: u8,
}

#[derive(Clone, Copy, PartialEq, Eq)]
pub enum Direction {
    Up,
    Right,
    Down,
    Left,
}

// 0 up, 1 right, 2 down, 3 left.
impl From<Direction> for u8 {
    ghost from_gives = { λ d n. (n ≡ number d) × (n ≤ 3) };

    fn from(d: Direction) -> u8 {
        d as u8
    }
}

// The row at place i, or one of no cell past the last place.
fn row_at(rows: [Row; 31], i: u8) -> Row
    ensures { result ≡ get_or rows i no_row }
{
    match rows.get(usize::from(i)) {
        Some(row) => *row,
        None => Row { left: 0, right: 0 },
    }
}

// The right end of row i, or 0 below the last row.
pub fn right_of(b: Board, i: u8) -> u8
    ensures { result ≡ right (board_of b) i }
{
    if i < b.count {
        row_at(b.rows, i).right
    } else {
        0
    }
}

// Is there a cell in row i between columns j and j + 1?
fn is_cell(b: Board, i: u8, j: u8) -> bool
    ensures { result ≡ cell? (board_of b) i j }
{
    let row = row_at(b.rows, i);
    (i < b.count) & ((row.left <= j) & (j < row.right))
}

// The four cells round v: is the one below right of it there, and so on?
pub fn below_right(b: Board, v: Vertex) -> bool
    ensures { result ≡ below_right (board_of b) v }
{
    is_cell(b, v.line, v.column)
}

pub fn below_left(b: Board, v: Vertex) -> bool
    ensures { result ≡ below_left (board_of b) v }
{
    (0 < v.column) & is_cell(b, v.line, v.column.saturating_sub(1))
}

pub fn above_right(b: Board, v: Vertex) -> bool
    ensures { result ≡ above_right (board_of b) v }
{
    (0 < v.line) & is_cell(b, v.line.saturating_sub(1), v.column)
}

pub fn above_left(b: Board, v: Vertex) -> bool
    ensures { result ≡ above_left (board_of b) v }
{
    ((0 < v.line) & (0 < v.column))
        & is_cell(b, v.line.saturating_sub(1), v.column.saturating_sub(1))
}

// Is v a vertex of the board?
pub fn is_vertex(b: Board, v: Vertex) -> bool
    ensures { Decides result (vertex? (board_of b) v) (IsVertex (board_of b) v) }
{
    (above_left(b, v) | above_right(b, v)) | (below_left(b, v) | below_right(b, v))
}

// Does an edge of the board leave v in the direction d?
pub fn is_edge(b: Board, d: Direction, v: Vertex) -> bool
    ensures { Decides result (edge? (board_of b) d v) (IsEdge (board_of b) (along d v)) }
{
    match d {
        Direction::Up => above_left(b, v) | above_right(b, v),
        Direction::Right => above_right(b, v) | below_right(b, v),
        Direction::Down => below_left(b, v) | below_right(b, v),
        Direction::Left => above_left(b, v) | below_left(b, v),
    }
}
