// Lists of numbers in hexadecimal text, as programs read them that run stored lists. A list is on a line, which goes on where the next line
// begins with a space.
#![tactic(auto)]

ghost use Rattle.std.specs.Prelude.{◌≡◌, ◌≤◌, length};
ghost use Rattle.io.specs.Counts.{IsPrefixLen};

// How many numbers a line has, and where the next line begins.
#[derive(Clone, Copy)]
pub struct Listed {
    pub count: usize,
    pub next: usize,
}

// What is read of a line so far: the number that is under way, if there is one, and how many are stored.
#[derive(Clone, Copy)]
struct Under {
    number: Option<u32>,
    count: usize,
}

// The value of a digit, "0" to "9" and "A" to "F".
fn digit(b: u8) -> Option<u8> {
    match b {
        b'0'..=b'9' => Some(b - b'0'),
        b'A'..=b'F' => Some(b - b'A' + 10),
        _ => None,
    }
}

// The value with one more digit, of which 32 bits are kept.
fn longer(value: u32, digit: u8) -> u32 {
    value << 4 | u32::from(digit)
}

// A number that is under way is stored where there is room.
fn store(u: Under, out: &mut [u32]) -> Under
    requires { u.count ≤ length out.old }
    ensures count_in_bounds { result.count ≤ length out.new }
    ensures out_len_unchanged { length out.new ≡ length out.old }
{
    let mut count = u.count;
    if let Some(value) = u.number
        && let Some(place) = out.get_mut(count)
    {
        *place = value;
        count += 1;
    }
    Under {
        number: None,
        count,
    }
}

// One byte more: a digit, or what ends a number.
fn step(u: Under, b: u8, out: &mut [u32]) -> Under
    requires { u.count ≤ length out.old }
    ensures count_in_bounds { result.count ≤ length out.new }
    ensures out_len_unchanged { length out.new ≡ length out.old }
{
    match digit(b) {
        Some(d) => Under {
            number: Some(longer(u.number.unwrap_or(0), d)),
            count: u.count,
        },
        None => store(u, out),
    }
}

// The first letter of the line from this index on.
pub fn letter(s: &[u8], at: usize) -> u8 {
    s.get(at).copied().unwrap_or(b'\n')
}

// Where the list that begins at this index ends: behind the line feed that no space follows, or with the text.
fn end_of_list(s: &[u8], from: usize) -> usize
    requires { from ≤ length s.now }
    ensures lower_bound { from ≤ result }
    ensures upper_bound { result ≤ length s.now }
{
    let last = s[from..]
        .windows(2)
        .position(|pair| pair[0] == b'\n' && pair[1] != b' ');
    match last {
        Some(i) => from + i + 1,
        None => s.len(),
    }
}

// The numbers on the line from this index on, at the start of the buffer, as many as it has room for. A number that the text breaks off is
// none of them.
pub fn read_list(s: &[u8], from: usize, out: &mut [u32]) -> Listed
    ensures { IsPrefixLen result.count out.new }
{
    if s.len() < from {
        return Listed {
            count: 0,
            next: from,
        };
    }
    let next = end_of_list(s, from);
    let mut u = Under {
        number: None,
        count: 0,
    };
    for b in &s[from..next] {
        u = step(u, *b, out);
    }
    Listed {
        count: u.count,
        next,
    }
}

// The lowest byte of each number, as far as the buffer has room for them; how many they are.
pub fn low_bytes(words: &[u32], out: &mut [u8]) -> usize
    ensures { IsPrefixLen result out.new }
{
    for (byte, word) in out.iter_mut().zip(words) {
        *byte = (*word % 256) as u8;
    }
    out.len().min(words.len())
}
