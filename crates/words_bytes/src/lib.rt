// Words in bytes: four bytes a word, lowest first.
#![tactic(auto)]

ghost use Rattle.std.specs.Prelude.{◌≡◌, ◌+◌, ◌*◌, ◌≤◌, ◌<◌, length, take};
ghost use Rattle.words_bytes.specs.Words.{word_at, FilledWith, FilledAll};
ghost use Rattle.words_bytes.specs.Put.{with_word, put_into};

// The word of four bytes from index i on.
fn word_at(bytes: &[u8], i: usize) -> u32
    requires { i + 3 < length bytes.now }
    ensures { result ≡ word_at bytes.now i }
{
    u32::from_le_bytes([bytes[i], bytes[i + 1], bytes[i + 2], bytes[i + 3]])
}

// The first n words of the bytes, at the start of the buffer. There must be as many, and room for them.
pub fn fill_words(bytes: &[u8], n: usize, out: &mut [u32])
    requires n_in_bounds { 4 * n ≤ length bytes.now }
    requires n_in_bounds_2 { n ≤ length out.old }
    ensures { FilledWith bytes.now n out.old out.new }
{
    let mut at: usize = 0;
    for i in 0..n {
        out[i] = word_at(bytes, at);
        at += 4;
    }
}

// Why bytes are not filled in as words: their count is no multiple of 4, or they are more words than there is room for.
#[derive(Clone, Copy, PartialEq, Eq)]
pub enum FillError {
    Uneven,
    Long,
}

// All words of the bytes, at the start of the buffer; how many they are.
pub fn fill_all(bytes: &[u8], out: &mut [u32]) -> Result<usize, FillError>
    ensures { FilledAll bytes.now out.old out.new result }
{
    if bytes.len() % 4 != 0 {
        return Err(FillError::Uneven);
    }
    let n = bytes.len() / 4;
    if out.len() < n {
        return Err(FillError::Long);
    }
    fill_words(bytes, n, out);
    Ok(n)
}

// A word as four bytes from this index on.
fn put_word(w: u32, out: &mut [u8], at: usize)
    requires { at + 3 < length out.old }
    ensures { out.new ≡ with_word out.old at w }
{
    out[at] = (w % 256) as u8;
    out[at + 1] = (w / 256 % 256) as u8;
    out[at + 2] = (w / 65536 % 256) as u8;
    out[at + 3] = (w / 16777216 % 256) as u8;
}

// The first n of the words as bytes, at the start of the buffer. There must be as many, and room for them.
pub fn put_words(words: &[u32], n: usize, out: &mut [u8])
    requires n_in_bounds { n ≤ length words.now }
    requires n_in_bounds_2 { 4 * n ≤ length out.old }
    ensures { out.new ≡ put_into out.old (take n words.now) }
{
    let mut at: usize = 0;
    for i in 0..n {
        put_word(words[i], out, at);
        at += 4;
    }
}
