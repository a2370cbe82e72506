// A line of the input as it is read, byte by byte: its first bytes, and how many it has.
ghost use Rattle.std.specs.Prelude.{◌≡◌, min, length};

pub const LF: u8 = 10;

pub const CR: u8 = 13;

// How many bytes of a line are kept: the longest line that is no fault has 36, and of a longer one so many are shown.
const KEPT: usize = 40;

// The first bytes of a line, with zeros after them, and how many bytes it has in all. A CR at its end is in neither, since with an LF after it
// it is the line's end and no byte of it: `cr` says that it was read. An array with a length, since a program here has no heap, and since
// `length` counts bytes that are not kept.
#[derive(Clone, Copy)]
pub struct Line {
    start: [u8; 40],
    pub length: usize,
    cr: bool,
}

impl Line {
    // The line with no byte.
    pub fn empty() -> Line {
        Line {
            start: [0; 40],
            length: 0,
            cr: false,
        }
    }

    // The bytes that are kept.
    pub fn kept(&self) -> &[u8]
        ensures { length result.now ≡ min self.now.length 40 }
    {
        &self.start[..self.length.min(KEPT)]
    }

    // One byte more, in place: a line by value would be copied at each byte. The count stays at the largest number.
    fn more(&mut self, b: u8) {
        if self.length < KEPT {
            self.start[self.length] = b;
        }
        self.length = self.length.saturating_add(1);
        self.cr = false;
    }

    // No LF comes after the line: a CR at its end is a byte of it.
    pub fn whole(&mut self) {
        if self.cr {
            self.more(CR);
        }
    }

    // The next byte, which is no LF.
    pub fn push(&mut self, b: u8) {
        self.whole();
        if b == CR {
            self.cr = true;
        } else {
            self.more(b);
        }
    }
}
