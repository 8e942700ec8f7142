// Lists of board words and of bytes through reading and writing, and what each answers.
//
// Standard input is text, at most 65,536 bytes of it: a list on a line, told by its first letter, with numbers in hexadecimal.
//     read WORD ..     at most 904 words are read: prints "read" with the count of words that are written back, or the refusal
//     bytes BYTE ..    the same of at most 904 bytes
//     write            the blank session is written into buffers of 1, 50, 223 and 224 words: prints "written" with the count, or the refusal
// Other lines are passed over.
#![tactic(auto)]

ghost use Rattle.std.specs.Prelude.{◌≡◌, ◌≤◌, length, take};
ghost use Rattle.io.specs.Counts.{IsPrefixLen};
ghost use Rattle.text.specs.Put.{Holds};
ghost use Rattle.session_rules.specs.Session as machine;
ghost use Rattle.call_rules.specs.Result.{Result};
ghost use Rattle.call_rules.specs.Reading.{read_words, read_bytes};
ghost use Rattle.board_reading.specs.Promise.{ReadPromise};
ghost use Rattle.board_writing.specs.Promise.{write_answer};
ghost use Rattle.run_board_words.specs.Text.{written_line, read_line};

use board_reading::ReadRefusal;
use board_writing::WriteRefusal;
use session::After;
use words::BOARD_WORDS;

// The line of what writing answers, at the start of the buffer; how many bytes it is.
fn written_line(name: &[u8], answer: Result<usize, WriteRefusal>, out: &mut [u8; 128]) -> usize
    requires { length name.now ≤ 16 }
    ensures { Holds (written_line name.now (write_answer answer)) result out.new }
{
    match answer {
        Ok(n) => text::line(name, &[n], out),
        Err(refusal) => text::refused(usize::from(refusal.number()), 0, out),
    }
}

// The line of what reading handed back.
fn read_line(after: After<Result<(), ReadRefusal>>, out: &mut [u8; 128]) -> usize
    ensures prefix_len { IsPrefixLen result out.new }
    ensures out_after { (x : Result machine.Session) → ReadPromise x after → take result out.new ≡ read_line x }
{
    match after.answer {
        Ok(()) => {
            let mut back = [0u32; BOARD_WORDS];
            let answer = board_writing::write_board(after.session, &mut back);
            written_line(b"read", answer, out)
        }
        Err(refusal) => text::refused(usize::from(refusal.number()), refusal.place(), out),
    }
}

fn words_line(words: &[u32], out: &mut [u8; 128]) -> usize
    ensures { Holds (read_line (read_words words.now)) result out.new }
{
    read_line(board_reading::read_words(words), out)
}

fn bytes_line(bytes: &[u8], out: &mut [u8; 128]) -> usize
    ensures { Holds (read_line (read_bytes bytes.now)) result out.new }
{
    read_line(board_reading::read_bytes(bytes), out)
}

// ── the lines ──

fn print_read(words: &[u32]) {
    let mut out = [0u8; 128];
    let n = words_line(words, &mut out);
    io::write_all(1, &out[..n]);
}

fn print_bytes(words: &[u32]) {
    let mut bytes = [0u8; 904];
    let mut out = [0u8; 128];
    let count = vectors::low_bytes(words, &mut bytes);
    let n = bytes_line(&bytes[..count], &mut out);
    io::write_all(1, &out[..n]);
}

// The blank session written into a buffer.
fn print_written(buffer: &mut [u32]) {
    let mut out = [0u8; 128];
    let answer = board_writing::write_board(session::blank(), buffer);
    let n = written_line(b"written", answer, &mut out);
    io::write_all(1, &out[..n]);
}

// 18: buffers under 224 words.
fn buffers() {
    let mut one = [0u32; 1];
    print_written(&mut one);
    let mut fifty = [0u32; 50];
    print_written(&mut fifty);
    let mut less = [0u32; 223];
    print_written(&mut less);
    let mut least = [0u32; BOARD_WORDS];
    print_written(&mut least);
}

// One list; where the next line begins.
fn list(s: &[u8], at: usize) -> usize {
    let mut words = [0u32; 904];
    let listed = vectors::read_list(s, at, &mut words);
    let count = listed.count;
    match vectors::letter(s, at) {
        b'r' => print_read(&words[..count]),
        b'b' => print_bytes(&words[..count]),
        b'w' => buffers(),
        _ => {}
    }
    listed.next
}

fn lists(s: &[u8]) {
    let mut at: usize = 0;
    for _ in 0..s.len() {
        at = list(s, at);
    }
}

fn main() {
    let mut text = io::large_buffer();
    let n = io::read_full(0, &mut text);
    lists(&text[..n]);
}
