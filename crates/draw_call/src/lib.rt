// Drawing a routing of a session as a page of text, from a list of routing words given as words or as bytes.
#![tactic(auto)]

ghost use Rattle.std.specs.Prelude.{◌≡◌};
ghost use Rattle.session.specs.View.{session_of};
ghost use Rattle.draw_call.specs.Answers.{asked_first, of_bytes, draw_refusal};
ghost use Rattle.draw_call.specs.declared.DrawRefusal.TheVariants as drawing;
ghost use Rattle.draw_call.specs.Promise.{DrawWordsPromise, DrawBytesPromise};

use judge_list::{BytesRefusal, Numbers, Reason};
use judge_page::PAGE_BYTES;
use judge_shape::Refusal;
use session::Session;

// Why no page is drawn: the session is unsound, the buffer is too short, the count of bytes is no multiple of 4, or the list is refused.
#[derive(Clone, Copy, PartialEq, Eq)]
pub enum DrawRefusal {
    Unsound,
    NoRoom,
    UnevenBytes,
    List(Refusal),
}

impl From<Refusal> for DrawRefusal {
    ghost from_gives = { λ refusal result. result ≡ drawing.List refusal };

    fn from(refusal: Refusal) -> DrawRefusal {
        DrawRefusal::List(refusal)
    }
}

impl From<BytesRefusal> for DrawRefusal {
    ghost from_gives = { λ refusal result. result ≡ of_bytes refusal };

    fn from(refusal: BytesRefusal) -> DrawRefusal {
        match refusal {
            BytesRefusal::UnevenBytes => DrawRefusal::UnevenBytes,
            BytesRefusal::List(refusal) => DrawRefusal::List(refusal),
        }
    }
}

impl Reason for DrawRefusal {
    ghost refusal = { draw_refusal };

    fn numbers(self) -> Numbers {
        match self {
            DrawRefusal::Unsound => Numbers::at(20, 0),
            DrawRefusal::NoRoom => Numbers::at(37, 0),
            DrawRefusal::UnevenBytes => Numbers::at(10, 0),
            DrawRefusal::List(reason) => reason.numbers(),
        }
    }
}

// What is asked before the list is looked at: is the session sound, and then, is there room for a page in a buffer of so many bytes?
fn ask_first(s: Session, room: usize) -> Result<(), DrawRefusal>
    ensures { result ≡ asked_first (session_of s) room }
{
    let unsound = !s.sound();
    let short = room < PAGE_BYTES;
    if unsound {
        return Err(DrawRefusal::Unsound);
    }
    if short {
        return Err(DrawRefusal::NoRoom);
    }
    Ok(())
}

// Judges a list of routing words and draws its page at the start of the buffer; how many bytes it has.
pub fn draw_words(s: Session, words: &[u32], out: &mut [u8]) -> Result<usize, DrawRefusal>
    ensures { DrawWordsPromise (session_of s) words.now out.old result out.new }
{
    ask_first(s, out.len())?;
    let board = s.block.board;
    let nets = s.nets;
    let mut used = [0u8; 2048];
    judge_list::check(board, nets, words, &mut used)?;
    Ok(judge_page::draw(board, &used, out))
}

// The same of bytes: their count must be a multiple of 4.
pub fn draw_bytes(s: Session, bytes: &[u8], out: &mut [u8]) -> Result<usize, DrawRefusal>
    ensures { DrawBytesPromise (session_of s) bytes.now out.old result out.new }
{
    ask_first(s, out.len())?;
    let board = s.block.board;
    let nets = s.nets;
    let mut used = [0u8; 2048];
    judge_list::check_bytes(board, nets, bytes, &mut used)?;
    Ok(judge_page::draw(board, &used, out))
}
