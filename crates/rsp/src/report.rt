// Reading a file whole, what a record gave, and bytes as they are written.
ghost use Rattle.std.specs.Prelude.{◌≡◌, ◌≢◌};

use crate::line;
use std::io::Read;
use std::rt::Files;
use std::{fmt, fs, io, str};

// What one record gave.
#[derive(Clone, Copy, Debug, PartialEq, Eq)]
pub enum Ran {
    Agrees,
    Differs,
    Unread,
}

impl Ran {
    // What was made beside what is wanted.
    pub fn compared(made: &[u8], wanted: &[u8]) -> Ran
        ensures same { result ≡ Ran.Agrees → made.now ≡ wanted.now }
        ensures other { result ≡ Ran.Differs → made.now ≢ wanted.now }
    {
        if made == wanted {
            Ran::Agrees
        } else {
            Ran::Differs
        }
    }
}

impl fmt::Display for Ran {
    fn fmt<W: fmt::Write>(&self, f: &mut fmt::Formatter<W>) -> fmt::Result {
        f.write_str(match self {
            Ran::Agrees => "agrees",
            Ran::Differs => "differs",
            Ran::Unread => "unreadable",
        })
    }
}

// Reads the file `name` into `buf` and returns its length. None if it cannot be opened or read, or if `buf` is not longer than it.
pub fn load(rt: &impl Files, name: &[u8], buf: &mut [u8]) -> Option<usize> {
    match read_file(rt, name, buf) {
        Ok(n) if n < buf.len() => Some(n),
        _ => None,
    }
}

// Reads the file `name` until it ends or `buf` is full, and returns how many bytes it put at the start of `buf`. `read_to_end` would
// need the heap.
fn read_file(rt: &impl Files, name: &[u8], buf: &mut [u8]) -> io::Result<usize> {
    let Ok(path) = str::from_utf8(name) else {
        return Err(io::Error::from(io::ErrorKind::InvalidFilename));
    };
    let mut file = fs::open(rt, path)?;
    let mut done = 0;
    while done < buf.len() {
        let n = file.read(&mut buf[done..])?;
        if n == 0 {
            break;
        }
        done += n;
    }
    Ok(done)
}

// Writes the line, without its end.
pub fn say_line(rt: &impl Print, rest: &[u8]) -> io::Result<()> {
    rt.write_all(line(rest))
}

// Writes the bytes in hexadecimal.
pub fn say_bytes(rt: &impl Print, bytes: &[u8]) -> io::Result<()> {
    for b in bytes {
        print!(rt; "{b:02x}")?;
    }
    Ok(())
}
