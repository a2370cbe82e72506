//! Text that a program writes, one part after another: words, numbers, bytes of an input as they are shown.
#![tactic(auto)]

ghost use Rattle.std.specs.Prelude.{◌≡◌, ◌+◌, ◌*◌, ◌≤◌, [], ◌++◌, length};
ghost use Rattle.hexadecimal.specs.Hexadecimal.{digits_of};
ghost use Rattle.printing.specs.Printing.{decimal, is_plain, shown_byte, shown};

use std::marker::Model;

// Text as it is written, with room for N bytes: a clause sees the bytes that are written. An array with a length, since a program here has no
// heap.
#[derive(Drop)]
pub struct Text<const N: usize> {
    bytes: [u8; N],
    length: usize,
}

impl<const N: usize> Model for Text<N> {
    ghost use Rattle.std.specs.Prelude.{List, ℕ, ◌≤◌, take};

    ghost Value = { List ℕ };

    ghost view = { λ t. take t.length t.bytes };

    ghost invariant = { λ t. t.length ≤ N };
}

impl<const N: usize> Text<N> {
    // The text with no byte.
    pub fn new() -> Text<N>
        ensures { result ≡ [] }
    {
        Text {
            bytes: [0; N],
            length: 0,
        }
    }

    // The same room with no byte in it.
    pub fn clear(&mut self)
        ensures { self.new ≡ [] }
    {
        self.length = 0;
    }

    // The bytes that are written.
    pub fn as_slice(&self) -> &[u8]
        ensures { result.now ≡ self.now }
    {
        &self.bytes[..self.length]
    }

    // Bytes as they are.
    pub fn put(&mut self, text: &[u8])
        requires { length self.old + length text.now ≤ N }
        ensures { self.new ≡ self.old ++ text.now }
    {
        octets::copy_at(&mut self.bytes, self.length, text);
        self.length += text.len();
    }

    // Bytes in hexadecimal.
    pub fn hex(&mut self, bytes: &[u8])
        requires { length self.old + 2 * length bytes.now ≤ N }
        ensures written { self.new ≡ self.old ++ digits_of bytes.now }
        ensures value { length self.new ≡ length self.old + 2 * length bytes.now }
    {
        hexadecimal::write_digits(bytes, &mut self.bytes, self.length);
        self.length += 2 * bytes.len();
    }

    // A number in decimal.
    pub fn decimal(&mut self, n: u64)
        requires { length self.old + 20 ≤ N }
        ensures written { self.new ≡ self.old ++ decimal n }
        ensures upper_bound { length self.new ≤ length self.old + 20 }
    {
        let mut digits = [0u8; 20];
        let k = io::decimal(n, &mut digits);
        self.put(&digits[..k]);
    }

    // A byte of the input. One that is not shown as it is is written \xNN, so that no byte of the input reaches a terminal as a command, what is
    // shown is one word, and it tells which byte it was.
    fn byte(&mut self, b: u8)
        requires { length self.old + 4 ≤ N }
        ensures written { self.new ≡ self.old ++ shown_byte b }
        ensures upper_bound { length self.new ≤ length self.old + 4 }
    {
        let one = [b];
        if is_plain(b) {
            self.put(&one);
        } else {
            self.put(b"\\x");
            self.hex(&one);
        }
    }

    // Bytes of the input.
    pub fn shown(&mut self, bytes: &[u8])
        requires { length self.old + 4 * length bytes.now ≤ N }
        ensures written { self.new ≡ self.old ++ shown bytes.now }
        ensures upper_bound { length self.new ≤ length self.old + 4 * length bytes.now }
    {
        for b in bytes {
            self.byte(*b);
        }
    }
}

// Whether a byte is shown as it is: the printable characters of ASCII, but for the space and the backslash.
#[tactic(auto, unfolding(crate::specs::Printing::is_plain))]
fn is_plain(b: u8) -> bool
    ensures { result ≡ is_plain b }
{
    b.is_ascii_graphic() && b != b'\\'
}
