//! Door numbers to and from records, line by line (document 02, T-05): each line of standard input, a Wiegand number, a UUID or a record
//! in hexadecimal, is written to standard output with its other form, or with its number and the reason in words.
#![tactic(auto)]

use door_answers::{ROOM, Text};
use line::Line;
use std::io::Read;

mod line;

// What ends a run before the input's end.
#[derive(Clone, Copy)]
enum Fault {
    Input,
    Output,
}

// Writes the answer to a line. `text` is room for it, the same at each line.
fn say(rt: &impl Print, text: &mut Text<ROOM>, line: &Line) -> Result<(), Fault> {
    text.clear();
    door_answers::write_answer(text, line.kept(), line.length);
    rt.write_all(text.as_slice()).map_err(|_| Fault::Output)
}

// The bytes that were read, after the line that those before them began: each line that ends among them is answered. The line that they begin.
fn take(rt: &impl Print, text: &mut Text<ROOM>, begun: Line, bytes: &[u8]) -> Result<Line, Fault> {
    let mut line = begun;
    for &b in bytes {
        if b == line::LF {
            say(rt, text, &line)?;
            line = Line::empty();
        } else {
            line.push(b);
        }
    }
    Ok(line)
}

// The end of the input: the line that no LF ended is answered, if there is one.
fn ended(rt: &impl Print, text: &mut Text<ROOM>, begun: Line) -> Result<(), Fault> {
    let mut line = begun;
    line.whole();
    if 0 < line.length {
        say(rt, text, &line)
    } else {
        Ok(())
    }
}

// One piece of the input, as much as there is at once. The line that it begins, or None at the end of the input.
fn piece(
    rt: &impl Print,
    text: &mut Text<ROOM>,
    input: &mut impl Read,
    begun: Line,
) -> Result<Option<Line>, Fault> {
    let mut buf = [0u8; 4096];
    match input.read(&mut buf) {
        Ok(0) => {
            ended(rt, text, begun)?;
            Ok(None)
        }
        Ok(n) => Ok(Some(take(rt, text, begun, &buf[..n])?)),
        Err(_) => Err(Fault::Input),
    }
}

// Nothing shows the prover that the input ends, so the pieces are counted up to the largest number, which no input has.
fn run(rt: &impl Print, input: &mut impl Read) -> Result<(), Fault> {
    let mut text = Text::new();
    let mut line = Line::empty();
    for _ in 0..u64::MAX {
        match piece(rt, &mut text, input, line)? {
            Some(begun) => line = begun,
            None => return Ok(()),
        }
    }
    Ok(())
}

// What cannot be written here is told nowhere.
fn complain(rt: &impl Eprint, fault: Fault) {
    let words = match fault {
        Fault::Input => "door: standard input cannot be read",
        Fault::Output => "door: standard output cannot be written",
    };
    let _ = rt.eprintln(words);
}

fn main(rt: HostRuntime) {
    let mut input = rt.stdin();
    if let Err(fault) = run(&rt, &mut input) {
        complain(&rt, fault);
    }
}
