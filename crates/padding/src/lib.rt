#![tactic(auto)]

// Padding of a text to whole blocks of 16 bytes, and back: ISO/IEC 9797-1, padding method 2.
ghost use Rattle.std.specs.Prelude.{◌≡◌, ◌≤◌, max, length};
ghost use Rattle.padding.specs.Method2.{blocks_for, pad_answer, pad_buffer, text_end, unpadded};

// How many blocks a text of t bytes takes.
pub fn blocks_for(t: usize) -> usize
    ensures { result ≡ blocks_for t }
{
    t / 16 + 1
}

// Pads the text in the first t bytes of buf and returns the length of the padded text, or None if it does not fit.
// Blocks are compared, not bytes: their number never overflows.
pub fn pad(buf: &mut [u8], t: usize) -> Option<usize>
    ensures answer { result ≡ pad_answer (length buf.old) t }
    ensures bytes { buf.new ≡ pad_buffer buf.old t }
{
    let blocks = blocks_for(t);
    if buf.len() / 16 < blocks {
        return None;
    }
    let end = 16 * blocks;
    buf[t] = 0x80;
    buf[t + 1..end].fill(0);
    Some(end)
}

// One past the last nonzero byte from start on, or start where all are zero. Every byte is looked at.
fn end_from(s: &[u8], start: usize) -> usize
    requires { start ≤ length s.now }
    ensures { result ≡ max start (text_end s.now (length s.now)) }
{
    let mut end = start;
    for (i, b) in s[start..].iter().enumerate() {
        if *b != 0 {
            end = start + i + 1;
        }
    }
    end
}

// The length of the text in s, or None if s is not padded rightly. Looks at the last block only, and at all of it.
pub fn unpad(s: &[u8]) -> Option<usize>
    ensures { result ≡ unpadded s.now }
{
    let n = s.len();
    if n % 16 != 0 {
        return None;
    }
    if n < 16 {
        return None;
    }
    let start = n - 16;
    let end = end_from(s, start);
    if end == start {
        return None;
    }
    let place = end - 1;
    if s[place] == 0x80 { Some(place) } else { None }
}
