// The words of boards and of routings: one place that packs each kind and one that unpacks it, by division and remainder.
#![tactic(auto)]

ghost use Rattle.std.specs.Prelude.{◌≡◌, ◌≤◌};
ghost use Rattle.words.specs.Bits.{kind};
ghost use Rattle.words.specs.BoardWord.{row_word, taken_word, net_word, end_word, as_row, as_taken, as_net, as_end, board_word};
ghost use Rattle.words.specs.RoutingWord.{
  path_word,
  run,
  run_word,
  routing_end_word,
  direction,
  path_in,
  run_in,
  as_path,
  as_run,
  as_routing_end,
  routing_word,
};

use board::{Direction, Row, Vertex};
use board_block::{Book, TakenPins};
use net::{Net, Pair};

// The greatest count of a board's words, and the least buffer to write them into.
pub const BOARD_WORDS: usize = 224;

// The greatest count of a routing's words: 64 paths, 1,984 runs and the end.
pub const ROUTING_WORDS: usize = 2049;

// What a board's end word says: the rule book, and the counts of rows and nets.
#[derive(Clone, Copy, PartialEq, Eq)]
pub struct BoardEnd {
    pub book: Book,
    pub rows: u8,
    pub nets: u8,
}

// A word of a board. Unknown: another kind, or a bit set that has no name, or 0 or 3 taken pins, or a book that is neither 0 nor 1.
#[derive(Clone, Copy, PartialEq, Eq)]
pub enum BoardWord {
    Row(Row),
    Taken(TakenPins),
    Net(Net),
    End(BoardEnd),
    Unknown,
}

// What a path word says: the net, and how many run words follow.
#[derive(Clone, Copy, PartialEq, Eq)]
pub struct Path {
    pub number: u8,
    pub runs: u16,
}

// So many edges in one direction.
#[derive(Clone, Copy, PartialEq, Eq)]
pub struct Run {
    pub direction: Direction,
    pub length: u8,
}

// A word of a routing. Unknown: another kind, or a bit set that has no name.
#[derive(Clone, Copy, PartialEq, Eq)]
pub enum RoutingWord {
    Path(Path),
    Run(Run),
    End(u8),
    Unknown,
}

// Bits 31-28.
fn kind_of(w: u32) -> u32
    ensures { result ≡ kind w }
{
    w / 268435456 % 16
}

pub fn pack_row(r: Row) -> u32
    ensures { result ≡ row_word r }
{
    268435456 + u32::from(r.left) * 32 + u32::from(r.right)
}

pub fn pack_taken(t: TakenPins) -> u32
    ensures { result ≡ taken_word t }
{
    let v = t.vertex;
    805306368 + u32::from(t.count) * 1024 + u32::from(v.line) * 32 + u32::from(v.column)
}

pub fn pack_net(n: Net) -> u32
    ensures { result ≡ net_word n }
{
    let ends = n.ends;
    let first = ends.first;
    let second = ends.second;
    let head = 536870912 + u32::from(n.number) * 1048576;
    head + u32::from(first.line) * 32768
        + u32::from(first.column) * 1024
        + u32::from(second.line) * 32
        + u32::from(second.column)
}

pub fn pack_end(e: BoardEnd) -> u32
    ensures { result ≡ end_word e.book e.rows e.nets }
{
    let number = u8::from(e.book);
    4026531840 + u32::from(number) * 16777216 + u32::from(e.rows) * 256 + u32::from(e.nets)
}

fn as_row(w: u32) -> BoardWord
    ensures { result ≡ as_row w }
{
    let row = Row {
        left: (w / 32 % 32) as u8,
        right: (w / 1 % 32) as u8,
    };
    if pack_row(row) == w {
        BoardWord::Row(row)
    } else {
        BoardWord::Unknown
    }
}

fn as_taken(w: u32) -> BoardWord
    ensures { result ≡ as_taken w }
{
    let vertex = Vertex {
        line: (w / 32 % 32) as u8,
        column: (w / 1 % 32) as u8,
    };
    let count = (w / 1024 % 4) as u8;
    if !((1 <= count) & (count <= 2)) {
        return BoardWord::Unknown;
    }
    let pins = TakenPins { vertex, count };
    if pack_taken(pins) == w {
        BoardWord::Taken(pins)
    } else {
        BoardWord::Unknown
    }
}

fn as_net(w: u32) -> BoardWord
    ensures { result ≡ as_net w }
{
    let first = Vertex {
        line: (w / 32768 % 32) as u8,
        column: (w / 1024 % 32) as u8,
    };
    let second = Vertex {
        line: (w / 32 % 32) as u8,
        column: (w / 1 % 32) as u8,
    };
    let net = Net {
        number: (w / 1048576 % 256) as u8,
        ends: Pair { first, second },
    };
    if pack_net(net) == w {
        BoardWord::Net(net)
    } else {
        BoardWord::Unknown
    }
}

fn as_end(w: u32) -> BoardWord
    ensures { result ≡ as_end w }
{
    let book = Book::from((w / 16777216 % 16) as u8);
    let end = BoardEnd {
        book,
        rows: (w / 256 % 256) as u8,
        nets: (w / 1 % 256) as u8,
    };
    if pack_end(end) == w {
        BoardWord::End(end)
    } else {
        BoardWord::Unknown
    }
}

// What a word of a board says.
pub fn board_word(w: u32) -> BoardWord
    ensures { result ≡ board_word w }
{
    match kind_of(w) {
        1 => as_row(w),
        2 => as_net(w),
        3 => as_taken(w),
        15 => as_end(w),
        _ => BoardWord::Unknown,
    }
}

pub fn direction_of(n: u32) -> Direction
    ensures { result ≡ direction n }
{
    match n {
        0 => Direction::Up,
        1 => Direction::Right,
        2 => Direction::Down,
        _ => Direction::Left,
    }
}

pub fn pack_path(p: Path) -> u32
    ensures { result ≡ path_word p }
{
    1073741824 + u32::from(p.number) * 1048576 + u32::from(p.runs)
}

// The run word of so many edges in a direction.
pub fn run_word(d: Direction, length: u16) -> u32
    ensures { result ≡ run_word (run d length) }
{
    1342177280 + u32::from(u8::from(d)) * 67108864 + u32::from(length)
}

pub fn pack_run(r: Run) -> u32
    ensures { result ≡ run_word r }
{
    let d = r.direction;
    run_word(d, u16::from(r.length))
}

pub fn pack_routing_end(paths: u8) -> u32
    ensures { result ≡ routing_end_word paths }
{
    3758096384 + u32::from(paths)
}

// The fields of a path word.
pub fn path_in(w: u32) -> Path
    ensures { result ≡ path_in w }
{
    Path {
        number: (w / 1048576 % 256) as u8,
        runs: (w / 1 % 2048) as u16,
    }
}

fn as_path(w: u32) -> RoutingWord
    ensures { result ≡ as_path w }
{
    let path = path_in(w);
    if pack_path(path) == w {
        RoutingWord::Path(path)
    } else {
        RoutingWord::Unknown
    }
}

// The fields of a run word.
pub fn run_in(w: u32) -> Run
    ensures value { result ≡ run_in w }
    ensures length_bound { result.length ≤ 31 }
{
    Run {
        direction: direction_of(w / 67108864 % 4),
        length: (w / 1 % 32) as u8,
    }
}

fn as_run(w: u32) -> RoutingWord
    ensures { result ≡ as_run w }
{
    let run = run_in(w);
    if pack_run(run) == w {
        RoutingWord::Run(run)
    } else {
        RoutingWord::Unknown
    }
}

fn as_routing_end(w: u32) -> RoutingWord
    ensures { result ≡ as_routing_end w }
{
    let paths = (w / 1 % 256) as u8;
    if pack_routing_end(paths) == w {
        RoutingWord::End(paths)
    } else {
        RoutingWord::Unknown
    }
}

// What a word of a routing says.
pub fn routing_word(w: u32) -> RoutingWord
    ensures { result ≡ routing_word w }
{
    match kind_of(w) {
        4 => as_path(w),
        5 => as_run(w),
        14 => as_routing_end(w),
        _ => RoutingWord::Unknown,
    }
}
