#![tactic(auto)]

// Runs NIST's response files for AES with keys of 128, 192 and 256 bits, ECB and CBC, in both directions. A file that cannot be read, and a
// record that cannot, each gives a line of its own, as a block that differs does. A record whose key has not the length that the file's name
// says is one that cannot be read.
ghost use Rattle.std.specs.Prelude.{◌≤◌, length, IfSome};

use aes_runs::{Direction, Mode, Ran, Tally};
use std::io;
use std::rt::Files;

// The section that this line starts, or `last` if it starts none. A record of no section cannot be run.
fn section_at(line: &[u8], last: Option<Direction>) -> Option<Direction> {
    if line.first() != Some(&b'[') {
        return last;
    }
    if rsp::starts(line, b"[ENCRYPT]") {
        return Some(Direction::Encipher);
    }
    if rsp::starts(line, b"[DECRYPT]") {
        return Some(Direction::Decipher);
    }
    None
}

// What a file's name says of its records: whether they are chained (CBC), and how many bytes their keys have.
#[derive(Clone, Copy)]
struct Kind {
    is_chained: bool,
    key_length: usize,
}

// Puts the bytes of a field of the record that begins here at the start of `out`, and returns how many they are.
fn bytes_of(record: &[u8], name: &[u8], out: &mut [u8]) -> Option<usize>
    ensures { IfSome result (λ n. n ≤ length out.new) }
{
    rsp::hex(rsp::field(record, name)?, out)
}

// Runs the record that begins here, whose texts have at most ten blocks. None if it cannot be run: its key has another length than its
// file's name says, its texts are not equally many whole blocks, or it has an IV and is not chained, or the other way round.
fn run_record(record: &[u8], kind: Kind, section: Option<Direction>) -> Option<Ran> {
    let mut key = [0u8; 32];
    let mut start = [0u8; 16];
    let mut plain = [0u8; 160];
    let mut cipher = [0u8; 160];
    let k = bytes_of(record, b"KEY = ", &mut key)?;
    let v = bytes_of(record, b"IV = ", &mut start);
    let n = bytes_of(record, b"PLAINTEXT = ", &mut plain)?;
    let m = bytes_of(record, b"CIPHERTEXT = ", &mut cipher)?;
    if k != kind.key_length || n != m || n % 16 != 0 || kind.is_chained != (v == Some(16)) {
        return None;
    }
    let mode = Mode {
        is_chained: kind.is_chained,
        direction: section?,
    };
    match mode.direction {
        Direction::Encipher => Some(aes_runs::run_text(
            mode, key, k, start, &mut plain, &cipher, n,
        )),
        Direction::Decipher => Some(aes_runs::run_text(
            mode,
            key,
            k,
            start,
            &mut cipher,
            &plain,
            n,
        )),
    }
}

// Says of a record that it did not agree, by its section and its first line.
fn complain(
    rt: &impl Print,
    name: &[u8],
    record: &[u8],
    section: Option<Direction>,
    ran: Ran,
) -> io::Result<()> {
    if ran == Ran::Agrees {
        return Ok(());
    }
    rt.write_all(name)?;
    rt.print(match section {
        Some(Direction::Encipher) => " [ENCRYPT] ",
        Some(Direction::Decipher) => " [DECRYPT] ",
        None => " ",
    })?;
    rsp::say_line(rt, record)?;
    println!(rt; ": {ran}")
}

fn records(rt: &impl Print, name: &[u8], file: &[u8], kind: Kind) -> io::Result<Tally> {
    let mut tally = Tally::default();
    let mut section = None;
    let mut rest = file;
    while !rest.is_empty() {
        section = section_at(rest, section);
        if rsp::starts(rest, b"COUNT = ") {
            let ran = run_record(rest, kind, section).unwrap_or(Ran::Unread);
            complain(rt, name, rest, section, ran)?;
            tally = tally.with(section.unwrap_or(Direction::Encipher), ran);
        }
        rest = rsp::next_line(rest);
    }
    Ok(tally)
}

// Runs a file of at most 131,071 bytes.
fn run(rt: &(impl Files + Print), name: &[u8], kind: Kind) -> io::Result<Tally> {
    let mut buf = [0u8; 131072];
    let n = rsp::load(rt, name, &mut buf);
    let tally = match n.and_then(|n| buf.get(..n)) {
        Some(file) => records(rt, name, file, kind)?,
        None => {
            rt.write_all(name)?;
            rt.println(": cannot be read")?;
            Tally::default().with(Direction::Encipher, Ran::Unread)
        }
    };
    rt.write_all(name)?;
    println!(rt; ": {tally}")?;
    Ok(tally)
}

// Puts `part` at place i of `name`, if it fits, and answers where it ends.
fn join(name: &mut [u8], i: usize, part: &[u8]) -> usize
    requires { i ≤ length name.old }
    ensures { result ≤ length name.old }
{
    if name.len() - i < part.len() {
        return i;
    }
    octets::copy_at(name, i, part);
    i + part.len()
}

// Runs the file that is named by its mode, its test and its keys' bits.
fn run_named(
    rt: &(impl Files + Print),
    mode: &[u8],
    test: &[u8],
    bits: &[u8],
) -> io::Result<Tally> {
    let mut name = [0u8; 32];
    let a = join(&mut name, 0, mode);
    let b = join(&mut name, a, test);
    let c = join(&mut name, b, bits);
    let e = join(&mut name, c, b".rsp");
    run(
        rt,
        &name[..e],
        Kind {
            is_chained: mode == b"CBC".as_slice(),
            key_length: rsp::decimal(bits).unwrap_or(0) / 8,
        },
    )
}

// The five files of a mode and a key length.
fn files(rt: &(impl Files + Print), mode: &[u8], bits: &[u8]) -> io::Result<Tally> {
    let a = run_named(rt, mode, b"GFSbox", bits)?;
    let b = run_named(rt, mode, b"KeySbox", bits)?;
    let c = run_named(rt, mode, b"VarKey", bits)?;
    let d = run_named(rt, mode, b"VarTxt", bits)?;
    let e = run_named(rt, mode, b"MMT", bits)?;
    Ok(a.and(b).and(c).and(d).and(e))
}

fn lengths(rt: &(impl Files + Print), mode: &[u8]) -> io::Result<Tally> {
    let a = files(rt, mode, b"128")?;
    let b = files(rt, mode, b"192")?;
    let c = files(rt, mode, b"256")?;
    Ok(a.and(b).and(c))
}

fn main(rt: HostRuntime) -> io::Result<()> {
    let ecb = lengths(&rt, b"ECB")?;
    let cbc = lengths(&rt, b"CBC")?;
    println!(rt; "total: {}", ecb.and(cbc))
}
