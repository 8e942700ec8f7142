// Reading a board from words and from bytes: a session with an empty pile, or a refusal and the blank session.
#![tactic(auto)]

ghost use Rattle.std.specs.Prelude.{◌≡◌};
ghost use Rattle.board.specs.View.{board_of};
ghost use Rattle.board_block.specs.View.{block_of};
ghost use Rattle.call_rules.specs.Result.{Result};
ghost use Rattle.call_rules.specs.Reading.{read_words, read_bytes};
ghost use Rattle.net_places.specs.Places.{nets_of};
ghost use Rattle.session_rules.specs.Add.{add_refused};
ghost use Rattle.session_rules.specs.Session as machine;
ghost use Rattle.board_reading.specs.Refused.{net_number, read_number, read_place};
ghost use Rattle.board_reading.specs.Pins.{PinsPromise};
ghost use Rattle.board_reading.specs.Adding.{number_in, net_answer, AllPromise};
ghost use Rattle.board_reading.specs.Promise.{SessionPromise, ReadPromise};
ghost use Rattle.board_reading.specs.declared.ReadRefusal.TheVariants.{Words};

use board::Board;
use board_block::{Block, Book};
use board_scan::ScanRefusal;
use net::{Net, Place};
use session::{After, Session};
use session_answers::AddRefusal;
use words::{BOARD_WORDS, BoardWord};
use words_bytes::FillError;

// Why the net of a word cannot be added, in the order of the table: its number is not one of 1 to 64; the number is taken; a terminal is no vertex of
// the board; its terminals are one vertex; the pins of a terminal are all taken.
#[derive(Clone, Copy, PartialEq, Eq)]
pub enum NetFault {
    BadNumber,
    NumberTaken,
    NoVertex,
    SameVertex,
    PinsTaken,
}

impl NetFault {
    // Its number in the table.
    pub fn number(self) -> u8
        ensures { result ≡ net_number self }
    {
        match self {
            NetFault::BadNumber => 21,
            NetFault::NumberTaken => 22,
            NetFault::NoVertex => 23,
            NetFault::SameVertex => 24,
            NetFault::PinsTaken => 25,
        }
    }
}

// Why a board is refused: the count of its bytes is no multiple of 4; what the scan of its words tells; it is not convex; at the word of this index
// more pins are taken than its vertex has; the net of the word of this index cannot be added.
#[derive(Clone, Copy, PartialEq, Eq)]
pub enum ReadRefusal {
    Uneven,
    Words(ScanRefusal),
    NotConvex,
    Pins(usize),
    Net(NetFault, usize),
}

impl ReadRefusal {
    // Its number in the table.
    pub fn number(self) -> u8
        ensures { result ≡ read_number self }
    {
        match self {
            ReadRefusal::Uneven => 10,
            ReadRefusal::Words(refusal) => refusal.number(),
            ReadRefusal::NotConvex => 16,
            ReadRefusal::Pins(_) => 38,
            ReadRefusal::Net(fault, _) => fault.number(),
        }
    }

    // The index of the word, 0 where there is none.
    pub fn place(self) -> usize
        ensures { result ≡ read_place self }
    {
        match self {
            ReadRefusal::Words(refusal) => refusal.place(),
            ReadRefusal::Pins(index) => index,
            ReadRefusal::Net(_, index) => index,
            _ => 0,
        }
    }
}

impl From<ScanRefusal> for ReadRefusal {
    ghost from_gives = { λ refusal e. e ≡ Words refusal };

    fn from(refusal: ScanRefusal) -> ReadRefusal {
        ReadRefusal::Words(refusal)
    }
}

// The taken pins of the words, at each vertex's place.
fn put_words(book: Book, b: Board, words: &[u32]) -> Result<[u8; 1024], ReadRefusal>
    ensures { PinsPromise book (board_of b) words.now result }
{
    let mut taken = [0u8; 1024];
    for (i, word) in words.iter().enumerate() {
        if let BoardWord::Taken(pins) = words::board_word(*word) {
            if board_block::over_taken(book, b, pins) {
                return Err(ReadRefusal::Pins(i));
            }
            board_block::put_taken(pins, &mut taken);
        }
    }
    Ok(taken)
}

// Can the net be added to those in the places, and if not, why? Adding asks no session, so none is unsound.
fn check_net(b: Block, nets: [Place; 64], net: Net) -> Result<(), NetFault>
    ensures { net_answer result ≡ number_in (add_refused (block_of b) (nets_of nets) net) }
{
    match session_add::check(b, nets, net) {
        Ok(()) => Ok(()),
        Err(AddRefusal::Unsound) => unreachable!(),
        Err(AddRefusal::BadNumber) => Err(NetFault::BadNumber),
        Err(AddRefusal::NumberTaken) => Err(NetFault::NumberTaken),
        Err(AddRefusal::NoVertex(_)) => Err(NetFault::NoVertex),
        Err(AddRefusal::SameVertex) => Err(NetFault::SameVertex),
        Err(AddRefusal::PinsTaken(_)) => Err(NetFault::PinsTaken),
    }
}

// The nets of the words, added in their order to the bare board.
fn add_words(b: Block, words: &[u32]) -> Result<[Place; 64], ReadRefusal>
    ensures { AllPromise (block_of b) words.now result }
{
    let mut nets = [None; 64];
    for (i, word) in words.iter().enumerate() {
        if let BoardWord::Net(net) = words::board_word(*word) {
            check_net(b, nets, net).map_err(|fault| ReadRefusal::Net(fault, i))?;
            let stored = net_places::stored(nets, net.number, Some(net.ends));
            nets = stored;
        }
    }
    Ok(nets)
}

// The session that a list of words gives.
fn session_in(words: &[u32]) -> Result<Session, ReadRefusal>
    ensures { SessionPromise (read_words words.now) result }
{
    let scan = board_scan::scan_words(words)?;
    let board = scan.board;
    let book = scan.book;
    if !board_convex::is_convex(board) {
        return Err(ReadRefusal::NotConvex);
    }
    let taken = put_words(book, board, words)?;
    let block = Block { board, book, taken };
    let nets = add_words(block, words)?;
    let fresh = session::fresh(block);
    Ok(fresh.with_places(nets, fresh.pile))
}

// What reading hands back: the session that it gives, or the refusal with the blank session.
fn handed_back(read: Result<Session, ReadRefusal>) -> After<Result<(), ReadRefusal>>
    ensures { (x : Result machine.Session) → SessionPromise x read → ReadPromise x result }
{
    match read {
        Ok(session) => session.accepted(),
        Err(refusal) => session::blank().refused(refusal),
    }
}

// The session that a list of words gives, or the refusal and the blank session.
pub fn read_words(words: &[u32]) -> After<Result<(), ReadRefusal>>
    ensures { ReadPromise (read_words words.now) result }
{
    handed_back(session_in(words))
}

// The same of bytes.
pub fn read_bytes(bytes: &[u8]) -> After<Result<(), ReadRefusal>>
    ensures { ReadPromise (read_bytes bytes.now) result }
{
    let mut words = [0u32; BOARD_WORDS];
    match words_bytes::fill_all(bytes, &mut words) {
        Ok(n) => read_words(&words[..n]),
        Err(FillError::Uneven) => handed_back(Err(ReadRefusal::Uneven)),
        Err(FillError::Long) => handed_back(Err(ReadRefusal::Words(ScanRefusal::BadLength))),
    }
}
