#![tactic(auto)]

// Runs NIST's response files for SHA-256 and compares each digest: short messages, long messages and the Monte Carlo test.
// A file that cannot be read, and a record that cannot, each gives a line of its own, as a digest that differs does.
ghost use Rattle.std.specs.Prelude.{◌≡◌, length};

use rsp::Ran;
use std::rt::Files;
use std::{fmt, io};

// What the records of a file gave so far.
#[derive(Clone, Copy, Debug, Default)]
struct Tally {
    hashed: u64,
    differ: u64,
    unread: u64,
}

impl Tally {
    // The tally with one record more. Only a digest that was made counts as hashed.
    fn with(mut self, ran: Ran) -> Tally {
        if ran == Ran::Unread {
            self.unread = self.unread.saturating_add(1);
            return self;
        }
        self.hashed = self.hashed.saturating_add(1);
        if ran == Ran::Differs {
            self.differ = self.differ.saturating_add(1);
        }
        self
    }

    fn and(self, other: Tally) -> Tally {
        Tally {
            hashed: self.hashed.wrapping_add(other.hashed),
            differ: self.differ.wrapping_add(other.differ),
            unread: self.unread.wrapping_add(other.unread),
        }
    }
}

impl fmt::Display for Tally {
    fn fmt<W: fmt::Write>(&self, f: &mut fmt::Formatter<W>) -> fmt::Result {
        write!(
            f,
            "{} hashed, {} differ, {} unreadable",
            self.hashed, self.differ, self.unread
        )
    }
}

// Says of a record that it did not agree, by its first line.
fn complain(rt: &impl Print, name: &[u8], record: &[u8], ran: Ran) -> io::Result<()> {
    if ran == Ran::Agrees {
        return Ok(());
    }
    rt.write_all(name)?;
    rt.print(" ")?;
    rsp::say_line(rt, record)?;
    println!(rt; ": {ran}")
}

// How many bytes a message has that a record gives n bytes and `bits` bits: the two agree, but that an empty message is
// written as the one byte 00.
fn message_len(bits: usize, n: usize) -> Option<usize> {
    if bits == 0 && n == 1 {
        return Some(0);
    }
    (bits % 8 == 0 && bits / 8 == n).then_some(n)
}

// Hashes the message of the record that begins here, of at most 8,192 bytes. None if it cannot be read.
fn message(record: &[u8]) -> Option<Ran> {
    let mut text = [0u8; 8192];
    let mut wanted = [0u8; 32];
    let bits = rsp::decimal(rsp::field(record, b"Len = ")?)?;
    let given = rsp::hex(rsp::field(record, b"Msg = ")?, &mut text)?;
    if rsp::hex(rsp::field(record, b"MD = ")?, &mut wanted)? != 32 {
        return None;
    }
    let digest = sha256::digest(text.get(..message_len(bits, given)?)?);
    Some(Ran::compared(&digest, &wanted))
}

fn messages(rt: &impl Print, name: &[u8], file: &[u8]) -> io::Result<Tally> {
    let mut tally = Tally::default();
    let mut rest = file;
    while !rest.is_empty() {
        if rsp::starts(rest, b"Len = ") {
            let ran = message(rest).unwrap_or(Ran::Unread);
            complain(rt, name, rest, ran)?;
            tally = tally.with(ran);
        }
        rest = rsp::next_line(rest);
    }
    Ok(tally)
}

// One output of the Monte Carlo test (SHAVS, 6.4): MD0, MD1 and MD2 are the seed, and a thousand times the next digest is that
// of the last three. The last one is the output, and the next seed.
fn thousand(seed: [u8; 32]) -> [u8; 32] {
    let mut last = [seed; 3];
    for _ in 0..1000 {
        let state = sha256::hash(last.as_flattened()).state;
        last = [last[1], last[2], sha256::to_bytes(state)];
    }
    last[2]
}

// The file from the seed of a Monte Carlo test on.
fn seed_of(file: &[u8]) -> Option<&[u8]> {
    let mut rest = file;
    while !rest.is_empty() {
        if let Some(seed) = rest.strip_prefix(b"Seed = ") {
            return Some(seed);
        }
        rest = rsp::next_line(rest);
    }
    None
}

// The seed of a Monte Carlo test, which has 32 bytes.
fn seed(file: &[u8]) -> Option<[u8; 32]> {
    let mut seed = [0u8; 32];
    (rsp::hex(seed_of(file)?, &mut seed)? == 32).then_some(seed)
}

// Compares an output with that of the record that begins here. None if it cannot be read.
fn output(record: &[u8], made: [u8; 32]) -> Option<Ran> {
    let mut wanted = [0u8; 32];
    let size = rsp::hex(rsp::field(record, b"MD = ")?, &mut wanted)?;
    (size == 32).then_some(Ran::compared(&made, &wanted))
}

fn outputs(rt: &impl Print, name: &[u8], file: &[u8], start: [u8; 32]) -> io::Result<Tally> {
    let mut seed = start;
    let mut tally = Tally::default();
    let mut rest = file;
    while !rest.is_empty() {
        if rsp::starts(rest, b"COUNT = ") {
            let made = thousand(seed);
            let ran = output(rest, made).unwrap_or(Ran::Unread);
            complain(rt, name, rest, ran)?;
            tally = tally.with(ran);
            seed = made;
        }
        rest = rsp::next_line(rest);
    }
    Ok(tally)
}

fn monte(rt: &impl Print, name: &[u8], file: &[u8]) -> io::Result<Tally> {
    if let Some(start) = seed(file) {
        return outputs(rt, name, file, start);
    }
    rt.write_all(name)?;
    rt.println(": unreadable seed")?;
    Ok(Tally::default().with(Ran::Unread))
}

// Room for a file. That it is so long is all that its caller knows of it: the check runs out of stack if it sees the bytes.
fn room() -> [u8; 524288]
    ensures { 524288 ≡ length result }
{
    [0; 524288]
}

// Runs a file of at most 524,287 bytes.
fn run(rt: &(impl Files + Print), name: &[u8], is_monte: bool) -> io::Result<Tally> {
    let mut buf = room();
    let n = rsp::load(rt, name, &mut buf);
    let tally = match n.and_then(|n| buf.get(..n)) {
        Some(file) if is_monte => monte(rt, name, file)?,
        Some(file) => messages(rt, name, file)?,
        None => {
            rt.write_all(name)?;
            rt.println(": cannot be read")?;
            Tally::default().with(Ran::Unread)
        }
    };
    rt.write_all(name)?;
    println!(rt; ": {tally}")?;
    Ok(tally)
}

fn main(rt: HostRuntime) -> io::Result<()> {
    let short = run(&rt, b"SHA256ShortMsg.rsp", false)?;
    let long = run(&rt, b"SHA256LongMsg.rsp", false)?;
    let monte = run(&rt, b"SHA256Monte.rsp", true)?;
    println!(rt; "total: {}", short.and(long).and(monte))
}
