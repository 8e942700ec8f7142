// What the call `wire` answers, as the line that is printed.
#![tactic(auto)]

ghost use Rattle.text.specs.Put.{Holds};
ghost use Rattle.wire_call.specs.Answers.{wire_answer};
ghost use Rattle.wire_text.specs.Text.{wire_line};

use wire_call::{Figures, Unsound};

// The line of an answer, at the start of the buffer; how many bytes it is.
pub fn wire_line(answer: Result<Figures, Unsound>, out: &mut [u8; 128]) -> usize
    ensures { Holds (wire_line (wire_answer answer)) result out.new }
{
    match answer {
        Ok(figures) => text::two_numbers(figures.crossings, figures.edges, out),
        Err(Unsound) => text::refused(20, 0, out),
    }
}
