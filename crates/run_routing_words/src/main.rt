// Lists of routing words through judging, and what each answers: "passed" with edges, turns and knock-knees, or "refused" with number and
// place.
//
// Standard input is text, at most 65,536 bytes of it: a list on a line, told by its first letter, with words in hexadecimal.
//     board WORD ..    the session that the lists are judged against, at most 2,050 words
//     list WORD ..     is judged, at most 2,050 words of it
// Other lines are passed over.
#![tactic(auto)]

ghost use Rattle.std.specs.Prelude.{◌≡◌};
ghost use Rattle.text.specs.Put.{Holds};
ghost use Rattle.session.specs.View.{session_of};
ghost use Rattle.call_rules.specs.Judge.{judge_words};
ghost use Rattle.judge_text.specs.Text.{judged_line};

use session::Session;

// The line of a judged list, at the start of the buffer; how many bytes it is.
fn list_line(s: Session, words: &[u32], out: &mut [u8; 128]) -> usize
    ensures { Holds (judged_line (judge_words (session_of s) words.now)) result out.new }
{
    judge_text::judgement_line(judge_call::judge_words(s, words), out)
}

fn print_list(s: Session, words: &[u32]) {
    let mut out = [0u8; 128];
    let n = list_line(s, words, &mut out);
    io::write_all(1, &out[..n]);
}

// The session after a line, and where the next line begins.
#[derive(Clone, Copy)]
struct Lined {
    session: Session,
    next: usize,
}

fn line(session: Session, s: &[u8], at: usize) -> Lined {
    let mut words = [0u32; 2050];
    let listed = vectors::read_list(s, at, &mut words);
    let count = listed.count;
    let mut lined = Lined {
        session,
        next: listed.next,
    };
    match vectors::letter(s, at) {
        b'b' => lined.session = board_reading::read_words(&words[..count]).session,
        b'l' => print_list(session, &words[..count]),
        _ => {}
    }
    lined
}

fn lines(s: &[u8]) {
    let mut session = session::blank();
    let mut at: usize = 0;
    for _ in 0..s.len() {
        let lined = line(session, s, at);
        session = lined.session;
        at = lined.next;
    }
}

fn main() {
    let mut text = io::large_buffer();
    let n = io::read_full(0, &mut text);
    lines(&text[..n]);
}
