// Draws a board by what its vertices are.
//
// Standard input is the board's words as a file has them, four bytes a word, lowest first; 65,536 bytes of it are read at most.
// Prints a line of text for each line of the board, with a sign for each column from 0 to 31: "o" an outer corner, of degree 2; "s" a straight side,
// of degree 3; "c" a concave corner and "i" a vertex inside, of degree 4; a space where no vertex is. Or "refused", the number and the place.
// ("t", two cells that touch at a corner only, never comes: a board that is read is convex, see law `named_kinds`.)
#![tactic(auto)]

ghost use Rattle.std.specs.Prelude.{◌≡◌, ◌+◌, ◌≤◌, length};
ghost use Rattle.text.specs.Put.{Put, Holds};
ghost use Rattle.board.specs.View.{board_of};
ghost use Rattle.degrees.specs.Drawing.{sign_of, line_drawn, board_drawn, bytes_drawn};

use board::{Board, Vertex};
use board_degree::VertexKind;

// The sign of a vertex.
fn sign(kind: VertexKind) -> u8
    ensures { result ≡ sign_of kind }
{
    match kind {
        VertexKind::OuterCorner => b'o',
        VertexKind::StraightSide => b's',
        VertexKind::ConcaveCorner => b'c',
        VertexKind::Inside => b'i',
        VertexKind::TouchingCorners => b't',
        VertexKind::NoVertex => b' ',
    }
}

// Line l of the board, from this index of the buffer on; where it ends.
fn draw_line(b: Board, l: u8, out: &mut [u8], at: usize) -> usize
    requires { at + 33 ≤ length out.old }
    ensures { Put (line_drawn (board_of b) l) at out.old result out.new }
{
    for c in 0..32 {
        let kind = board_degree::kind_of(b, Vertex { line: l, column: c });
        out[at + usize::from(c)] = sign(kind);
    }
    out[at + 32] = b'\n';
    at + 33
}

// All lines of the board, at the start of the buffer; how many bytes they are.
fn draw_board(b: Board, out: &mut [u8]) -> usize
    requires { 1056 ≤ length out.old }
    ensures { Holds (board_drawn (board_of b)) result out.new }
{
    let lines = b.count.min(31) + 1;
    let mut end: usize = 0;
    for l in 0..lines {
        end = draw_line(b, l, out, end);
    }
    end
}

// The board of these bytes, or the refusal.
fn draw_bytes(bytes: &[u8], out: &mut [u8; 1056]) -> usize
    ensures { Holds (bytes_drawn bytes.now) result out.new }
{
    let after = board_reading::read_bytes(bytes);
    match after.answer {
        Ok(()) => draw_board(after.session.block.board, out),
        Err(refusal) => text::refused(usize::from(refusal.number()), refusal.place(), out),
    }
}

fn main() {
    let mut bytes = io::large_buffer();
    let mut drawing = [0u8; 1056];
    let n = io::read_full(0, &mut bytes);
    let count = draw_bytes(&bytes[..n], &mut drawing);
    io::write_all(1, &drawing[..count]);
}
