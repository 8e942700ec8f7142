// What routing answers, as text.
#![tactic(auto)]

ghost use Rattle.std.specs.Prelude.{[], ◌∷◌, take};
ghost use Rattle.io.specs.Counts.{IsPrefixLen};
ghost use Rattle.text.specs.Put.{Holds};
ghost use Rattle.session.specs.View.{session_of};
ghost use Rattle.call_rules.specs.Route.{overfull_refusal};
ghost use Rattle.route_call.specs.Answers.{route_answer};
ghost use Rattle.route_text.specs.Text.{refusal_text, answer_text, RouteText};

use cut::Cut;
use route_call::RouteRefusal;
use session::Session;
use words::ROUTING_WORDS;

// The refusal of an overfull cut.
fn cut_text(x: Cut, out: &mut [u8; 18441]) -> usize
    ensures { Holds (refusal_text (overfull_refusal x)) result out.new }
{
    match x {
        Cut::Row(i) => text::refused_at(33, 0, usize::from(i), out),
        Cut::Column(j) => text::refused_at(33, 1, usize::from(j), out),
    }
}

// What routing answered: its words, or the refusal. There is room for the longest routing.
fn answer_text(
    answer: Result<usize, RouteRefusal>,
    words: &[u32; ROUTING_WORDS],
    out: &mut [u8; 18441],
) -> usize
    ensures { Holds (answer_text (route_answer answer) words.now) result out.new }
{
    match answer {
        Ok(count) => text::word_lines(words, count, out),
        Err(RouteRefusal::Unsound) => text::refused(20, 0, out),
        Err(RouteRefusal::ShortBuffer) => text::refused(31, 0, out),
        Err(RouteRefusal::Odd(v)) => text::refused_at(
            32,
            usize::from(v.line),
            usize::from(v.column),
            out,
        ),
        Err(RouteRefusal::Overfull(x)) => cut_text(x, out),
        Err(RouteRefusal::NoRouting) => text::refused(34, 0, out),
    }
}

// Routes a session; its text at the start of the buffer, and how many bytes that is.
pub fn session_text(s: Session, out: &mut [u8; 18441]) -> usize
    ensures prefix_len { IsPrefixLen result out.new }
    ensures route_text { RouteText (session_of s) (take result out.new) }
{
    let mut words = [0u32; ROUTING_WORDS];
    let answer = route_call::route(s, &mut words);
    answer_text(answer, &words, out)
}
