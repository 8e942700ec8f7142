// The layout editor's calls. Crate cidrask_c exports them to programs in C; editor/cidrask.h tells a caller how to use them.
#![tactic(auto)]

ghost use Rattle.std.specs.Prelude.{◌≡◌};
ghost use Rattle.call_rules.specs.Editor.{editor_wire, editor_judge, editor_alike};
ghost use Rattle.cidrask_told.specs.Told.{wire_told, judge_told, alike_told};
ghost use Rattle.cidrask.specs.Promise.{
  OnBoard,
  RoutedAs,
  RoutePromise,
  WirePromise,
  JudgePromise,
  AlikePromise,
  DrawnAs,
  DrawPromise,
};

use cidrask_told::Told;
use session::Session;

// The board is read, and the call made on its session; or the refusal is told.
fn on_board<F: FnOnce(Session) -> Told>(board: &[u8], call: F) -> Told
    requires { F.IsAlwaysCallable call }
    ensures { OnBoard board.now (F.post call) result }
{
    let after = board_reading::read_bytes(board);
    match after.answer {
        Ok(()) => call(after.session),
        Err(refusal) => cidrask_told::refused(refusal.number(), refusal.place()),
    }
}

fn wired(board: &[u8]) -> Told
    ensures { result ≡ wire_told (editor_wire board.now) }
{
    on_board(
        board,
        |session| cidrask_told::wire_told(wire_call::wire(session)),
    )
}

fn judged(board: &[u8], list: &[u8]) -> Told
    ensures { result ≡ judge_told (editor_judge board.now list.now) }
{
    on_board(
        board,
        |session| cidrask_told::judge_told(judge_call::judge_bytes(session, list)),
    )
}

fn compared(board: &[u8], one: &[u8], two: &[u8]) -> Told
    ensures { result ≡ alike_told (editor_alike board.now one.now two.now) }
{
    on_board(
        board,
        |session| cidrask_told::alike_told(judge_call::compare_bytes(session, one, two)),
    )
}

// A board that is refused leaves the buffer untouched.
// Kept: what a closure writes through a borrow of the buffer is not known after the call, so this and `drawn` do not go through `on_board`.
fn routed(board: &[u8], buffer: &mut [u8]) -> Told
    ensures { RoutedAs board.now buffer.old result buffer.new }
{
    let after = board_reading::read_bytes(board);
    match after.answer {
        Ok(()) => cidrask_told::route_told(route_call::route_bytes(after.session, buffer)),
        Err(refusal) => cidrask_told::refused(refusal.number(), refusal.place()),
    }
}

fn drawn(board: &[u8], list: &[u8], page: &mut [u8]) -> Told
    ensures drawn_as { DrawnAs board.now list.now page.old result page.new }
    ensures second_value { result.second ≡ 0 }
{
    let after = board_reading::read_bytes(board);
    match after.answer {
        Ok(()) => cidrask_told::draw_told(draw_call::draw_bytes(after.session, list, page)),
        Err(refusal) => cidrask_told::refused(refusal.number(), refusal.place()),
    }
}

// Reads a board and routes its nets into the buffer. Answers 0 or the refusal's number; the other two numbers are the count of words and 0,
// or the place.
pub fn cidrask_route(board: &[u8], buffer: &mut [u8], first: &mut u64, second: &mut u64) -> u32
    ensures { RoutePromise board.now buffer.old result first.new second.new buffer.new }
{
    let answer = routed(board, buffer);
    *first = answer.first;
    *second = answer.second;
    answer.number
}

// Reads a board and tells the wire that its nets take. Answers 0 or the refusal's number; the other two numbers are the sum of crossing nets over all
// rows and columns and the board's edge count, or the place.
pub fn cidrask_wire(board: &[u8], first: &mut u64, second: &mut u64) -> u32
    ensures { WirePromise board.now result first.new second.new }
{
    let figures = wired(board);
    *first = figures.first;
    *second = figures.second;
    figures.number
}

// Reads a board and judges a list of routing words against it. Answers 0 or the refusal's number; the other three numbers are the report's, or
// the place.
pub fn cidrask_judge(
    board: &[u8],
    list: &[u8],
    first: &mut u64,
    second: &mut u64,
    third: &mut u64,
) -> u32
    ensures { JudgePromise board.now list.now result first.new second.new third.new }
{
    let told = judged(board, list);
    *first = told.first;
    *second = told.second;
    *third = told.third;
    told.number
}

// Reads a board and tells whether two lists of routing words are alike. Answers 0 or the refusal's number; the other two numbers are 1 for alike or
// 0, and 0; or the place.
pub fn cidrask_alike(board: &[u8], one: &[u8], two: &[u8], first: &mut u64, second: &mut u64) -> u32
    ensures { AlikePromise board.now one.now two.now result first.new second.new }
{
    let told = compared(board, one, two);
    *first = told.first;
    *second = told.second;
    told.number
}

// Reads a board, judges a list of routing words against it and draws its page. Answers 0 or the refusal's number; the other number is the count of
// bytes, or the place.
pub fn cidrask_draw(board: &[u8], list: &[u8], page: &mut [u8], first: &mut u64) -> u32
    ensures { DrawPromise board.now list.now page.old result first.new page.new }
{
    let drawing = drawn(board, list, page);
    *first = drawing.first;
    drawing.number
}
