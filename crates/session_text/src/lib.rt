// What a call that changes a session answers, as the line that is printed.
#![tactic(auto)]

ghost use Rattle.text.specs.Put.{Holds};
ghost use Rattle.session_answers.specs.Answers.{add_all_answer, move_answer};
ghost use Rattle.session_text.specs.Text.{answer_line, told_answer};

use session_answers::{AddAllAnswer, MoveRefusal, Reason, Told};

// The line of an answer, at the start of the buffer; how many bytes it is.
pub fn told_line(told: Told, out: &mut [u8; 128]) -> usize
    ensures { Holds (answer_line (told_answer told)) result out.new }
{
    if told.number == 0 {
        text::line(b"accepted", &[0usize; 0], out)
    } else {
        text::refused(usize::from(told.number), usize::from(told.place), out)
    }
}

// The same of what adding a list of nets answered.
pub fn list_line(answer: AddAllAnswer, out: &mut [u8; 128]) -> usize
    ensures { Holds (answer_line (add_all_answer answer)) result out.new }
{
    match answer.last {
        Ok(()) => text::line(b"accepted", &[answer.count], out),
        Err(reason) => {
            let number = usize::from(reason.number());
            let place = usize::from(reason.place());
            text::refused_after(number, place, answer.count, out)
        }
    }
}

// The same of what a move to the new rule answered.
pub fn move_line(answer: Result<(), MoveRefusal>, out: &mut [u8; 128]) -> usize
    ensures { Holds (answer_line (move_answer answer)) result out.new }
{
    match answer {
        Ok(()) => text::line(b"accepted", &[0usize; 0], out),
        Err(MoveRefusal::Unsound) => text::refused(20, 0, out),
        Err(MoveRefusal::PinsMissing(v)) => {
            text::refused_at(39, usize::from(v.line), usize::from(v.column), out)
        }
    }
}
