#![tactic(auto)]

// Reads NIST's response files (CAVS, `.rsp`). Such a file is lines that end in LF or in CR and LF: comments (#), sections
// ([ENCRYPT]) and fields (KEY = 00ff..). A record is a run of fields that an empty line ends.
//
// A file is lent whole, as a slice. A place in it is the rest of the file from there on.
ghost use Rattle.std.specs.Prelude.{◌≡◌, true, ◌<◌, ◌≤◌, length, IfSome};

mod report;

pub use report::{Ran, load, say_bytes, say_line};

// Whether a line ends here: CR or LF comes next, or the file ends.
pub fn line_ends(rest: &[u8]) -> bool {
    matches!(rest.first(), None | Some(b'\r' | b'\n'))
}

// The line, without its end.
fn line(rest: &[u8]) -> &[u8] {
    match rest.iter().position(|&b| b == b'\r' || b == b'\n') {
        Some(n) => &rest[..n],
        None => rest,
    }
}

// The rest of the file after the line.
pub fn next_line(rest: &[u8]) -> &[u8]
    ensures upper_bound { length result.now ≤ length rest.now }
    ensures shorter { 0 < length rest.now → length result.now < length rest.now }
{
    // A loop: `position` looks at four bytes a turn, and takes five times the instructions where lines are short.
    for (i, b) in rest.iter().enumerate() {
        if *b == b'\n' {
            return &rest[i + 1..];
        }
    }
    &rest[rest.len()..]
}

// Whether the rest of the file begins with a text. It ends at the first byte that differs, which for most lines is the first of all.
pub fn starts(rest: &[u8], text: &[u8]) -> bool
    ensures { result ≡ true → length text.now ≤ length rest.now }
{
    let fits = text.len() <= rest.len();
    if !fits {
        return fits;
    }
    for (k, b) in text.iter().enumerate() {
        if rest[k] != *b {
            return false;
        }
    }
    true
}

// The file from the value on of a field of the record that begins here. `name` is the field's, with " = " at its end.
pub fn field<'a>(record: &'a [u8], name: &[u8]) -> Option<&'a [u8]> {
    let mut rest = record;
    while !rest.is_empty() {
        if starts(rest, name) {
            return Some(&rest[name.len()..]);
        }
        if line_ends(rest) {
            return None;
        }
        rest = next_line(rest);
    }
    None
}

// The value of a hexadecimal digit.
fn digit(b: u8) -> Option<u8>
    ensures { IfSome result (λ d. d < 16) }
{
    match b {
        b'0'..=b'9' => Some(b - b'0'),
        b'a'..=b'f' => Some(b - b'a' + 10),
        _ => None,
    }
}

// The byte of two hexadecimal digits.
fn pair(high: u8, low: u8) -> Option<u8> {
    Some(16 * digit(high)? + digit(low)?)
}

// Puts the bytes that a value's hexadecimal digits say at the start of `out`, and returns how many they are. None if there is no
// digit, an odd number of them, something else before the line ends, or more than `out` holds; `out` then stays as it was.
pub fn hex(value: &[u8], out: &mut [u8]) -> Option<usize>
    ensures { IfSome result (λ n. n ≤ length out.new) }
{
    let digits = line(value);
    let n = digits.len() / 2;
    if n == 0 || digits.len() % 2 != 0 || out.len() < n {
        return None;
    }
    if !digits.iter().all(|b| digit(*b).is_some()) {
        return None;
    }
    for (to, two) in out.iter_mut().zip(digits.chunks_exact(2)) {
        *to = pair(two[0], two[1])?;
    }
    Some(n)
}

// A value's decimal number. None if there is no digit, more than twelve, or something else before the line ends.
pub fn decimal(value: &[u8]) -> Option<usize> {
    let digits = line(value);
    if digits.is_empty() {
        return None;
    }
    let mut n: usize = 0;
    for &b in digits {
        let d = digit(b).filter(|d| *d < 10)?;
        if 99_999_999_999 < n {
            return None;
        }
        n = 10 * n + usize::from(d);
    }
    Some(n)
}
