// The words of a board, taken one by one: each through refusals 12 to 15.
#![tactic(auto)]

ghost use Rattle.std.specs.Prelude.{◌≡◌, ◌<◌};
ghost use Rattle.board_scan.specs.Promise.{ScanPromise};
ghost use Rattle.board_scan.specs.Refused.{fault_number, scan_number, scan_place};
ghost use Rattle.board_scan.specs.Scan.{with_row, with_taken, with_net, with_end, with_word, start};

use board::{Board, Row, Vertex};
use board_block::{Book, TakenPins};
use net::Net;
use words::{BOARD_WORDS, BoardEnd, BoardWord};

// Why a word is refused, in the order of the table: its kind or a bit of it has no name; it stands where it may not; a row has no cell, or is the
// 32nd; the end word counts other rows or nets than there were.
#[derive(Clone, Copy, PartialEq, Eq)]
pub enum WordFault {
    Unknown,
    Misplaced,
    BadRow,
    WrongCount,
}

impl WordFault {
    // Its number in the table.
    pub fn number(self) -> u8
        ensures { result ≡ fault_number self }
    {
        match self {
            WordFault::Unknown => 12,
            WordFault::Misplaced => 13,
            WordFault::BadRow => 14,
            WordFault::WrongCount => 15,
        }
    }
}

// Why a list of words is refused: there are none, or more than BOARD_WORDS; or a word has a fault, with the index of the word. A missing end word is
// misplaced, at the index behind the last word.
#[derive(Clone, Copy, PartialEq, Eq)]
pub enum ScanRefusal {
    BadLength,
    Word(WordFault, usize),
}

impl ScanRefusal {
    // Its number in the table.
    pub fn number(self) -> u8
        ensures { result ≡ scan_number self }
    {
        match self {
            ScanRefusal::BadLength => 11,
            ScanRefusal::Word(fault, _) => fault.number(),
        }
    }

    // The index of the word, 0 where there is none.
    pub fn place(self) -> usize
        ensures { result ≡ scan_place self }
    {
        match self {
            ScanRefusal::BadLength => 0,
            ScanRefusal::Word(_, index) => index,
        }
    }
}

// What the words so far have said: the board's rows, the last vertex of which pins are taken, how many nets, the last net's number, whether the end
// word has been, and the book that it names, the old one before it.
#[derive(Clone, Copy)]
pub struct Scan {
    pub board: Board,
    pub pin: Option<Vertex>,
    pub nets: u8,
    pub last: Option<u8>,
    pub book: Book,
    pub ended: bool,
}

// Before the first word.
fn before_words() -> Scan
    ensures { result ≡ start }
{
    let row = Row { left: 0, right: 0 };
    Scan {
        board: Board {
            count: 0,
            rows: [row; 31],
        },
        pin: None,
        nets: 0,
        last: None,
        book: Book::Old,
        ended: false,
    }
}

#[tactic(auto, unfolding(crate::specs::Scan::with_row))]
fn with_row(scan: Scan, row: Row) -> Result<Scan, WordFault>
    ensures { result ≡ with_row scan row }
{
    if scan.pin.is_some() || scan.last.is_some() || scan.ended {
        return Err(WordFault::Misplaced);
    }
    let mut board = scan.board;
    if row.right <= row.left || 31 <= board.count {
        return Err(WordFault::BadRow);
    }
    board.rows[usize::from(board.count)] = row;
    board.count += 1;
    Ok(Scan { board, ..scan })
}

#[tactic(auto, unfolding(crate::specs::Scan::with_taken))]
fn with_taken(scan: Scan, first: bool, pins: TakenPins) -> Result<Scan, WordFault>
    ensures { result ≡ with_taken scan first pins }
{
    let again = scan.pin.is_some_and(|last| pins.vertex <= last);
    if first || scan.last.is_some() || again || scan.ended {
        return Err(WordFault::Misplaced);
    }
    Ok(Scan {
        pin: Some(pins.vertex),
        ..scan
    })
}

#[tactic(auto, unfolding(crate::specs::Scan::with_net))]
fn with_net(scan: Scan, first: bool, net: Net) -> Result<Scan, WordFault>
    requires { scan.nets < 255 }
    ensures { result ≡ with_net scan first net }
{
    let again = scan.last.is_some_and(|last| net.number <= last);
    if first || again || scan.ended {
        return Err(WordFault::Misplaced);
    }
    Ok(Scan {
        nets: scan.nets + 1,
        last: Some(net.number),
        ..scan
    })
}

#[tactic(auto, unfolding(crate::specs::Scan::with_end))]
fn with_end(scan: Scan, first: bool, end: BoardEnd) -> Result<Scan, WordFault>
    ensures { result ≡ with_end scan first end }
{
    if first || scan.ended {
        return Err(WordFault::Misplaced);
    }
    if end.rows != scan.board.count || end.nets != scan.nets {
        return Err(WordFault::WrongCount);
    }
    Ok(Scan {
        book: end.book,
        ended: true,
        ..scan
    })
}

// The scan with what one more word says, or what is wrong with the word.
#[tactic(auto, unfolding(crate::specs::Scan::with_word))]
fn with_word(scan: Scan, first: bool, word: BoardWord) -> Result<Scan, WordFault>
    requires { scan.nets < 255 }
    ensures { result ≡ with_word scan first word }
{
    match word {
        BoardWord::Row(row) => with_row(scan, row),
        BoardWord::Taken(pins) => with_taken(scan, first, pins),
        BoardWord::Net(net) => with_net(scan, first, net),
        BoardWord::End(end) => with_end(scan, first, end),
        BoardWord::Unknown => Err(WordFault::Unknown),
    }
}

// The words one by one, each through 12 to 15; then an end must have been. First of all 11: no words or more than BOARD_WORDS.
pub fn scan_words(words: &[u32]) -> Result<Scan, ScanRefusal>
    ensures { ScanPromise words.now result }
{
    if words.is_empty() || BOARD_WORDS < words.len() {
        return Err(ScanRefusal::BadLength);
    }
    let mut scan = before_words();
    for (i, word) in words.iter().enumerate() {
        let next = with_word(scan, i == 0, words::board_word(*word));
        scan = next.map_err(|fault| ScanRefusal::Word(fault, i))?;
    }
    if !scan.ended {
        return Err(ScanRefusal::Word(WordFault::Misplaced, words.len()));
    }
    Ok(scan)
}
