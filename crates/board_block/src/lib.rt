// A block: a board with its rule book and the pins that the package has taken, and the pins that nets may use.
#![tactic(auto)]

ghost use Rattle.std.specs.Prelude.{◌≡◌, ◌-◌, ◌≤◌, ◌<◌};
ghost use Rattle.board.specs.View.{board_of};
ghost use Rattle.board_block.specs.Book.{book_number, book_of, pins_by};
ghost use Rattle.board_block.specs.Block.{pins_of};
ghost use Rattle.board_block.specs.Taken.{over_taken, taken_fine?};
ghost use Rattle.board_block.specs.View.{vertex_at, block_of, entry_of, there_at, with_taken, with_book, plain_of};
ghost use Rattle.board_block.specs.Promise.{TakesPins};

use board::{Board, Vertex};

// The foundry's rule books, 0 the old and 1 the new: under the new one a vertex of degree 2 has one pin.
#[derive(Clone, Copy, PartialEq, Eq)]
pub enum Book {
    Old,
    New,
}

// So many pins of the vertex are taken.
#[derive(Clone, Copy, PartialEq, Eq)]
pub struct TakenPins {
    pub vertex: Vertex,
    pub count: u8,
}

// How many pins are taken at each vertex, that of line l and column c at place l * 32 + c.
#[derive(Clone, Copy)]
pub struct Block {
    pub board: Board,
    pub book: Book,
    pub taken: [u8; 1024],
}

// A board by itself, under the old rule, of which no pin is taken.
pub fn plain(board: Board) -> Block
    ensures { result ≡ plain_of board }
{
    Block {
        board,
        book: Book::Old,
        taken: [0u8; 1024],
    }
}

// 0 the old rule, 1 the new.
impl From<Book> for u8 {
    ghost from_gives = { λ book number. (number ≡ book_number book) × (number ≤ 1) };

    fn from(book: Book) -> u8 {
        match book {
            Book::Old => 0,
            Book::New => 1,
        }
    }
}

// The book of a number: 0 is the old rule's, any other is read as the new one's, which is 1.
impl From<u8> for Book {
    ghost from_gives = { λ number book. book ≡ book_of number };

    fn from(number: u8) -> Book {
        if number == 0 { Book::Old } else { Book::New }
    }
}

// The block under this book; its board and taken pins stay.
pub fn with_book(b: Block, book: Book) -> Block
    ensures { result ≡ with_book b book }
{
    Block { book, ..b }
}

// The count of pins at v before any are taken.
pub fn pins_by(book: Book, b: Board, v: Vertex) -> u8
    ensures { result ≡ pins_by book (board_of b) v }
{
    let all = board_degree::pins_of(b, v);
    match book {
        Book::Old => all,
        Book::New => if all == 2 { 1 } else { all },
    }
}

// How many pins of v are taken. Outside lines and columns 0 to 31 there are none.
fn taken_at(pins: &[u8; 1024], v: Vertex) -> u8
    ensures { result ≡ entry_of pins.now v }
{
    if v.line < 32 {
        if v.column < 32 {
            let at = usize::from(v.line) * 32 + usize::from(v.column);
            return pins[at];
        }
    }
    0
}

// The count of pins at v that are left by those that are taken.
pub fn pins_left(book: Book, b: Board, taken: &[u8; 1024], v: Vertex) -> u8
    ensures { result ≡ pins_by book (board_of b) v - entry_of taken.now v }
{
    pins_by(book, b, v).saturating_sub(taken_at(taken, v))
}

// The count of pins at v that nets may use.
pub fn pins_of(b: Block, v: Vertex) -> u8
    ensures { result ≡ pins_of (block_of b) v }
{
    pins_left(b.book, b.board, &b.taken, v)
}

// Is the vertex missing, or has it fewer pins than are taken?
pub fn over_taken(book: Book, b: Board, t: TakenPins) -> bool
    ensures { result ≡ over_taken book (board_of b) t }
{
    let v = t.vertex;
    !board::is_vertex(b, v) | (pins_by(book, b, v) < t.count)
}

// Puts taken pins into the array, in place of what it had of the vertex; outside lines and columns 0 to 31 nothing is put.
pub fn put_taken(t: TakenPins, pins: &mut [u8; 1024])
    ensures { pins.new ≡ with_taken pins.old t }
{
    let v = t.vertex;
    if v.line < 32 {
        if v.column < 32 {
            let at = usize::from(v.line) * 32 + usize::from(v.column);
            pins[at] = t.count;
        }
    }
}

// The block with so many pins of a vertex taken, in place of what was taken of it; outside lines and columns 0 to 31 nothing is.
pub fn with_taken(b: Block, t: TakenPins) -> Block
    ensures { TakesPins b t result }
{
    let mut next = b;
    put_taken(t, &mut next.taken);
    next
}

// The vertex of a place.
pub fn vertex_at(place: usize) -> Vertex
    requires { place < 1024 }
    ensures { result ≡ vertex_at place }
{
    Vertex {
        line: (place / 32) as u8,
        column: (place % 32) as u8,
    }
}

// Are so many pins of the vertex of a place there to be taken? Where none are taken, yes.
fn is_there(book: Book, b: Board, place: usize, count: u8) -> bool
    requires { place < 1024 }
    ensures { result ≡ there_at book (board_of b) (vertex_at place) count }
{
    if count == 0 {
        return true;
    }
    let vertex = vertex_at(place);
    (count <= 2) & !over_taken(book, b, TakenPins { vertex, count })
}

// Are the taken pins there: one or two of a vertex that has as many?
pub fn is_fine(b: Block) -> bool
    ensures { result ≡ taken_fine? (block_of b) }
{
    let mut ok = true;
    for (place, count) in b.taken.iter().enumerate() {
        ok = ok & is_there(b.book, b.board, place, *count);
    }
    ok
}
