// Words and numbers as text: functions that put a text into a buffer, and what prints such a text on standard output.
// Kept: a text goes into a buffer that is lent, with its length beside it, and not into a String, which needs the heap and may fail (no heap).
#![tactic(auto)]

ghost use Rattle.std.specs.Prelude.{◌≡◌, ◌+◌, ◌*◌, ◌≤◌, ◌<◌, length, take};
ghost use mathlib.Core.List.{[], ◌∷◌, flat_map};
ghost use Rattle.text.specs.Hex.{digit_at, hex_line, hex_lines};
ghost use Rattle.text.specs.Line.{decimal, spaced, line_of, refused_line, refused_after_line};
ghost use Rattle.text.specs.Put.{Put, Holds};

// The digit of a word that stands for so many units, "0" to "9" and "A" to "F".
fn digit(w: u32, unit: u32) -> u8
    requires { 0 < unit }
    ensures { result ≡ digit_at w unit }
{
    let d = (w / unit % 16) as u8;
    if d < 10 { b'0' + d } else { b'A' - 10 + d }
}

// A word in eight digits, and a line's end.
pub fn hex_line(w: u32) -> [u8; 9]
    ensures { result ≡ hex_line w }
{
    // Kept: of a map over the eight units `map-requires` stays open, that each unit is above 0.
    [
        digit(w, 0x1000_0000),
        digit(w, 0x100_0000),
        digit(w, 0x10_0000),
        digit(w, 0x1_0000),
        digit(w, 0x1000),
        digit(w, 0x100),
        digit(w, 0x10),
        digit(w, 1),
        b'\n',
    ]
}

// The bytes of s, from this index of the buffer on; where they end.
fn put(s: &[u8], out: &mut [u8], at: usize) -> usize
    requires { at + length s.now ≤ length out.old }
    ensures { Put s.now at out.old result out.new }
{
    let end = at + s.len();
    out[at..end].copy_from_slice(s);
    end
}

// A space and the number's digits, from this index of the buffer on; where they end.
fn put_number(n: usize, out: &mut [u8], at: usize) -> usize
    requires { at + 21 ≤ length out.old }
    ensures put { Put (spaced n) at out.old result out.new }
    ensures upper_bound { result ≤ at + 21 }
{
    let mut digits = [0u8; 20];
    let count = io::decimal(n as u64, &mut digits);
    let from = put(b" ", out, at);
    put(&digits[..count], out, from)
}

fn put_numbers(numbers: &[usize], out: &mut [u8], at: usize) -> usize
    requires { at + 21 * length numbers.now ≤ length out.old }
    ensures put { Put (flat_map spaced numbers.now) at out.old result out.new }
    ensures upper_bound { result ≤ at + 21 * length numbers.now }
{
    let mut end = at;
    for number in numbers {
        end = put_number(*number, out, end);
    }
    end
}

// A name, numbers and a line feed, from this index of the buffer on; where they end.
fn put_line(name: &[u8], numbers: &[usize], out: &mut [u8], at: usize) -> usize
    requires { at + length name.now + 21 * length numbers.now < length out.old }
    ensures put { Put (line_of name.now numbers.now) at out.old result out.new }
    ensures upper_bound { result ≤ length out.new }
{
    let named = put(name, out, at);
    let numbered = put_numbers(numbers, out, named);
    put(b"\n", out, numbered)
}

// A name, numbers and a line feed, at the start of the buffer; how many bytes they are.
pub fn line(name: &[u8], numbers: &[usize], out: &mut [u8]) -> usize
    requires { length name.now + 21 * length numbers.now < length out.old }
    ensures { Holds (line_of name.now numbers.now) result out.new }
{
    put_line(name, numbers, out, 0)
}

// A line of two numbers, parted by a space.
pub fn two_numbers(first: usize, second: usize, out: &mut [u8]) -> usize
    requires { 41 < length out.old }
    ensures { Holds (line_of (decimal first) (second ∷ [])) result out.new }
{
    let mut digits = [0u8; 20];
    let count = io::decimal(first as u64, &mut digits);
    line(&digits[..count], &[second], out)
}

// The line of a refusal with a place of one number.
// Kept: of a slice of places each number would be put by itself (no heap), and the calls would be no plainer.
pub fn refused(number: usize, place: usize, out: &mut [u8]) -> usize
    requires { 49 < length out.old }
    ensures { Holds (refused_line number (place ∷ [])) result out.new }
{
    line(b"refused", &[number, place], out)
}

// The same with a place of two numbers.
pub fn refused_at(number: usize, first: usize, second: usize, out: &mut [u8]) -> usize
    requires { 70 < length out.old }
    ensures { Holds (refused_line number (first ∷ second ∷ [])) result out.new }
{
    line(b"refused", &[number, first, second], out)
}

// The line of a refusal with a place of one number, and how many of a list went on before it.
pub fn refused_after(number: usize, place: usize, count: usize, out: &mut [u8]) -> usize
    requires { 76 < length out.old }
    ensures { Holds (refused_after_line number (place ∷ []) count) result out.new }
{
    let named = put(b"refused", out, 0);
    let numbered = put_numbers(&[number, place], out, named);
    put_line(b" after", &[count], out, numbered)
}

// The first n words, or all where there are fewer, each on a line, at the start of the buffer; how many bytes they are.
pub fn word_lines(words: &[u32], n: usize, out: &mut [u8]) -> usize
    requires { 9 * length words.now ≤ length out.old }
    ensures { Holds (hex_lines (take n words.now)) result out.new }
{
    let first = &words[..n.min(words.len())];
    let mut end = 0;
    for word in first {
        end = put(&hex_line(*word), out, end);
    }
    end
}

// ── printing ──

// Prints a line of a name and numbers, at most five.
pub fn print_line(name: &[u8], numbers: &[usize])
    requires { length name.now + 21 * length numbers.now < 128 }
{
    let mut out = [0u8; 128];
    let n = line(name, numbers, &mut out);
    io::write_all(1, &out[..n]);
}
