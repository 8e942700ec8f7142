// The layout editor's calls, for programs in C: each export calls the function of its name in crate cidrask, and promises what that one promises.
// editor/cidrask.h tells a caller how to use them.
#![tactic(auto)]

ghost use Rattle.cidrask.specs.Promise.{
  RoutePromise,
  WirePromise,
  JudgePromise,
  AlikePromise,
  DrawPromise,
};

// Reads a board and routes its nets into the buffer. Answers 0 or the refusal's number; the other two numbers are the count of words and 0,
// or the place.
#[unsafe(no_mangle)]
pub extern "C" fn cidrask_route(
    board: &[u8],
    buffer: &mut [u8],
    first: &mut u64,
    second: &mut u64,
) -> u32
    ensures { RoutePromise board.now buffer.old result first.new second.new buffer.new }
{
    cidrask::cidrask_route(board, buffer, first, second)
}

// Reads a board and tells the wire that its nets take. Answers 0 or the refusal's number; the other two numbers are the sum of crossing nets over all
// rows and columns and the board's edge count, or the place.
#[unsafe(no_mangle)]
pub extern "C" fn cidrask_wire(board: &[u8], first: &mut u64, second: &mut u64) -> u32
    ensures { WirePromise board.now result first.new second.new }
{
    cidrask::cidrask_wire(board, first, second)
}

// Reads a board and judges a list of routing words against it. Answers 0 or the refusal's number; the other three numbers are the report's, or
// the place.
#[unsafe(no_mangle)]
pub extern "C" fn cidrask_judge(
    board: &[u8],
    list: &[u8],
    first: &mut u64,
    second: &mut u64,
    third: &mut u64,
) -> u32
    ensures { JudgePromise board.now list.now result first.new second.new third.new }
{
    cidrask::cidrask_judge(board, list, first, second, third)
}

// Reads a board and tells whether two lists of routing words are alike. Answers 0 or the refusal's number; the other two numbers are 1 for alike or
// 0, and 0; or the place.
#[unsafe(no_mangle)]
pub extern "C" fn cidrask_alike(
    board: &[u8],
    one: &[u8],
    two: &[u8],
    first: &mut u64,
    second: &mut u64,
) -> u32
    ensures { AlikePromise board.now one.now two.now result first.new second.new }
{
    cidrask::cidrask_alike(board, one, two, first, second)
}

// Reads a board, judges a list of routing words against it and draws its page. Answers 0 or the refusal's number; the other number is the count of
// bytes, or the place.
#[unsafe(no_mangle)]
pub extern "C" fn cidrask_draw(board: &[u8], list: &[u8], page: &mut [u8], first: &mut u64) -> u32
    ensures { DrawPromise board.now list.now page.old result first.new page.new }
{
    cidrask::cidrask_draw(board, list, page, first)
}
