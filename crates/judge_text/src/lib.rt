// What judging and comparing answer, as a line of text at the start of a buffer; each function answers how many bytes it is.
#![tactic(auto)]

ghost use Rattle.std.specs.Prelude.{[], ◌∷◌};
ghost use Rattle.text.specs.Line.{refused_line};
ghost use Rattle.text.specs.Put.{Holds};
ghost use Rattle.call_rules.specs.Result.{yes};
ghost use Rattle.judge_report.specs.Reports.{report_is};
ghost use Rattle.judge_list.specs.Verdicts.{report_by, value_by};
ghost use Rattle.judge_text.specs.Text.{judged_line, compared_line};

use judge_list::Reason;
use judge_report::Report;

fn report_line(r: Report, out: &mut [u8; 128]) -> usize
    ensures { Holds (judged_line (yes (report_is r))) result out.new }
{
    let numbers = [r.edges as usize, r.turns as usize, r.knocks as usize];
    text::line(b"passed", &numbers, out)
}

fn refusal_line<R: Reason + Copy>(reason: R, out: &mut [u8; 128]) -> usize
    ensures { Holds (refused_line (R.refusal reason).number (R.refusal reason).place) result out.new }
{
    let told = reason.numbers();
    let number = usize::from(told.number);
    let first = usize::from(told.first);
    match told.second {
        None => text::refused(number, first, out),
        Some(second) => text::refused_at(number, first, usize::from(second), out),
    }
}

// The verdict on a list.
pub fn verdict_line<R: Reason + Copy>(v: Result<Report, R>, out: &mut [u8; 128]) -> usize
    ensures { Holds (judged_line (report_by R.refusal v)) result out.new }
{
    match v {
        Ok(r) => report_line(r, out),
        Err(r) => refusal_line(r, out),
    }
}

// The judgement on a list, against a session.
pub fn judgement_line<R: Reason + Copy>(j: Result<Report, R>, out: &mut [u8; 128]) -> usize
    ensures { Holds (judged_line (report_by R.refusal j)) result out.new }
{
    verdict_line(j, out)
}

// Whether two lists are alike.
pub fn comparison_line<R: Reason + Copy>(c: Result<bool, R>, out: &mut [u8; 128]) -> usize
    ensures { Holds (compared_line (value_by R.refusal c)) result out.new }
{
    match c {
        Ok(t) => alike_line(t, out),
        Err(r) => refusal_line(r, out),
    }
}

fn alike_line(t: bool, out: &mut [u8; 128]) -> usize
    ensures { Holds (compared_line (yes t)) result out.new }
{
    if t {
        text::line(b"alike", &[0usize; 0], out)
    } else {
        text::line(b"not alike", &[0usize; 0], out)
    }
}
