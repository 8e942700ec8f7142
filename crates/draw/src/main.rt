// Draws a routing of a board as a page of text.
//
// Standard input is the board's words and then the routing's, as files have them, four bytes a word, lowest first: cat BOARD LIST | draw. The board
// ends with its end word, the first word of kind 15. 65,536 bytes are read at most, more than any board and routing have.
// Prints the page, 63 characters and a line feed for each of its text lines; or "refused", the number and the place.
#![tactic(auto)]

ghost use Rattle.std.specs.Prelude.{◌≡◌, ◌≤◌, length};
ghost use Rattle.text.specs.Put.{Holds};
ghost use Rattle.session.specs.View.{session_of};
ghost use Rattle.call_rules.specs.Page.{draw_bytes};
ghost use Rattle.call_rules.specs.Editor.{editor_draw};
ghost use Rattle.draw.specs.Text.{board_end, page_text, text_of};

use draw_call::DrawRefusal;
use judge_page::PAGE_BYTES;
use session::Session;

// How many of the bytes are the board's.
fn board_end(bytes: &[u8]) -> usize
    ensures value { result ≡ board_end bytes.now }
    ensures upper_bound { result ≤ length bytes.now }
{
    let mut end: usize = 0;
    for word in bytes.chunks_exact(4) {
        end += 4;
        let is_last = word[3] / 16 == 15;
        if is_last {
            return end;
        }
    }
    bytes.len()
}

// The page of a list for a session, or the refusal, at the start of the buffer; how many bytes that is.
fn session_text(s: Session, list: &[u8], out: &mut [u8]) -> usize
    requires { length out.old ≡ 4032 }
    ensures { Holds (page_text (draw_bytes (session_of s) list.now 4032)) result out.new }
{
    match draw_call::draw_bytes(s, list, out) {
        Ok(count) => count,
        Err(DrawRefusal::Unsound) => text::refused(20, 0, out),
        Err(DrawRefusal::NoRoom) => text::refused(37, 0, out),
        Err(DrawRefusal::UnevenBytes) => text::refused(10, 0, out),
        Err(DrawRefusal::List(r)) => {
            text::refused(usize::from(r.fault.number()), usize::from(r.place), out)
        }
    }
}

// The board is read first.
fn board_text(board: &[u8], list: &[u8], out: &mut [u8; PAGE_BYTES]) -> usize
    ensures { Holds (page_text (editor_draw board.now list.now 4032)) result out.new }
{
    let after = board_reading::read_bytes(board);
    match after.answer {
        Ok(()) => session_text(after.session, list, out),
        Err(refusal) => text::refused(usize::from(refusal.number()), refusal.place(), out),
    }
}

// A board's bytes and then a list's.
fn page_text(bytes: &[u8], out: &mut [u8; PAGE_BYTES]) -> usize
    ensures { Holds (text_of bytes.now) result out.new }
{
    let end = board_end(bytes);
    board_text(&bytes[..end], &bytes[end..], out)
}

fn main() {
    let mut bytes = io::large_buffer();
    let mut text = [0u8; PAGE_BYTES];
    let n = io::read_full(0, &mut bytes);
    let count = page_text(&bytes[..n], &mut text);
    io::write_all(1, &text[..count]);
}
