// Routes a board.
//
// Standard input is the board's words as a file has them, four bytes a word, lowest first.
// Prints each routing word on a line, or "refused", the number and the place numbers.
#![tactic(auto)]

ghost use Rattle.std.specs.Prelude.{◌≡◌, List, ℕ, ◌%◌, ◌≤◌, length, take};
ghost use Rattle.io.specs.Counts.{IsPrefixLen};
ghost use Rattle.route.specs.Text.{BoardText};

// The text for a board's bytes, at the start of the buffer; how many bytes it is.
fn board_text(bytes: &[u8], out: &mut [u8; 18441]) -> usize
    ensures prefix_len { IsPrefixLen result out.new }
    ensures board_text { BoardText bytes.now (take result out.new) }
{
    let after = board_reading::read_bytes(bytes);
    match after.answer {
        Ok(()) => route_text::session_text(after.session, out),
        Err(refusal) => text::refused(usize::from(refusal.number()), refusal.place(), out),
    }
}

// The text for a list of 65,536 bytes or more: only its count plays a part, and n is what is left of it.
fn long_text(n: usize, out: &mut [u8; 18441]) -> usize
    ensures prefix_len { IsPrefixLen result out.new }
    ensures by_index { (bs : List ℕ) → 65536 ≤ length bs → length bs % 4 ≡ n % 4 → BoardText bs (take result out.new) }
{
    if n % 4 == 0 {
        text::refused(11, 0, out)
    } else {
        text::refused(10, 0, out)
    }
}

// Reads on to the end; how many bytes the last buffer took. (A million buffers are read at most.)
fn read_on() -> usize {
    let mut bytes = io::large_buffer();
    for _ in 0..1000000 {
        let n = io::read_full(0, &mut bytes);
        if n < 65536 {
            return n;
        }
    }
    0
}

fn main() {
    let mut bytes = io::large_buffer();
    let mut text = [0u8; 18441];
    let n = io::read_full(0, &mut bytes);
    if n == 65536 {
        let count = long_text(read_on(), &mut text);
        io::write_all(1, &text[..count]);
        return;
    }
    let count = board_text(&bytes[..n], &mut text);
    io::write_all(1, &text[..count]);
}
