//! The list of an initial command: SEQUENCE OF OCTET STRING of size 2.
#![tactic(auto)]

ghost use Rattle.std.specs.Prelude.{◌≡◌, ◌+◌, ◌*◌, ◌≤◌, min, length, get_or};
ghost use Rattle.list.specs.Ber.{unsigned, fitting, length_at, entry_at, head, walked, ended, listed};
ghost use Rattle.list.specs.Laws.{largest};

use plaid_types::KeySetId;

#[derive(Clone, Copy)]
pub struct Length {
    pub value: usize,
    pub next: usize,
}

// One byte more of a number; where that is over the largest usize, the largest, which fits no data.
fn grown(v: usize, b: u8) -> usize
    ensures { result ≡ min (v * 256 + b) largest }
{
    v.saturating_mul(256).saturating_add(usize::from(b))
}

// The number in these bytes, high byte first; where it is over the largest usize, the largest.
fn number(s: &[u8]) -> usize
    ensures { result ≡ min (unsigned s.now) largest }
{
    let mut v: usize = 0;
    for b in s {
        v = grown(v, *b);
    }
    v
}

// A length whose value fits the data: so many bytes are there after it.
fn fitting(d: &[u8], v: usize, next: usize) -> Option<Length>
    requires { next ≤ length d.now }
    ensures { result ≡ fitting d.now v next }
{
    if d.len() - next < v {
        return None;
    }
    Some(Length { value: v, next })
}

// The definite length at a place: the short form, or 81 to FE and as many bytes as that says.
fn length_at(d: &[u8], at: usize) -> Option<Length>
    ensures { result ≡ length_at d.now at }
{
    let b = usize::from(*d.get(at)?);
    let from = at + 1;
    if b < 0x80 {
        return fitting(d, b, from);
    }
    // 80 is the indefinite form, which only the SEQUENCE may have, and X.690 keeps FF for later.
    if b < 0x81 {
        return None;
    }
    if 0xfe < b {
        return None;
    }
    let n = b - 0x80;
    if d.len() - from < n {
        return None;
    }
    let next = from + n;
    let v = number(&d[from..next]);
    fitting(d, v, next)
}

#[derive(Clone, Copy)]
pub struct Entry {
    pub id: KeySetId,
    pub next: usize,
}

// The KeySetID in an entry's two bytes.
fn id_at(d: &[u8], at: usize) -> KeySetId
    requires { at + 2 ≤ length d.now }
    ensures { result.0 ≡ get_or d.now at 0 * 256 + get_or d.now (at + 1) 0 }
{
    let high = d[at];
    let low = d[at + 1];
    KeySetId(octets::word(high, low))
}

// The entry at a place: tag 04, length 2, KeySetID.
fn entry_at(d: &[u8], at: usize) -> Option<Entry>
    ensures { result ≡ entry_at d.now at }
{
    let tag = *d.get(at)?;
    if tag != 4 {
        return None;
    }
    let l = length_at(d, at + 1)?;
    if l.value != 2 {
        return None;
    }
    Some(Entry {
        id: id_at(d, l.next),
        next: l.next + 2,
    })
}

// A place inside the caller's data.
#[derive(Clone, Copy)]
pub struct Cursor<'a> {
    pub list: &'a [u8],
    pub at: usize,
}

impl<'a> Cursor<'a> {
    // The entry at the cursor's place.
    pub fn step(self) -> Option<Entry>
        ensures { result ≡ entry_at self.entry.list.now self.entry.at }
    {
        entry_at(self.list, self.at)
    }
}

// The form of the outer SEQUENCE's length.
#[derive(Clone, Copy)]
pub enum Form {
    Definite,
    Indefinite,
}

// The outer SEQUENCE: the form of its length, and where its first entry stands.
#[derive(Clone, Copy)]
pub struct Outer {
    pub form: Form,
    pub first: usize,
}

// Tag 30, and a length that says all that is left, or the indefinite form.
fn head(d: &[u8]) -> Option<Outer>
    ensures { result ≡ head d.now }
{
    if d.len() < 2 {
        return None;
    }
    if d[0] != 0x30 {
        return None;
    }
    if d[1] == 0x80 {
        return Some(Outer {
            form: Form::Indefinite,
            first: 2,
        });
    }
    let l = length_at(d, 1)?;
    if d.len() - l.next != l.value {
        return None;
    }
    Some(Outer {
        form: Form::Definite,
        first: l.next,
    })
}

// Where n entries from a place on end. What is no entry is not passed, nor read again: its length may be long.
fn walk(d: &[u8], at: usize, n: usize) -> usize
    ensures { result ≡ walked d.now at n }
{
    let mut p = at;
    for _ in 0..n {
        let c = Cursor { list: d, at: p };
        let Some(e) = c.step() else {
            return p;
        };
        p = e.next;
    }
    p
}

// Whether two zero bytes at a place end the data.
fn zeros_end(d: &[u8], at: usize) -> bool
    ensures { result ≡ ended d.now Form.Indefinite at }
{
    2 <= d.len() && at == d.len() - 2 && d[at] == 0 && d[at + 1] == 0
}

// Whether the entries end at a place: the data end there, or after two zero bytes that stand there.
fn ended(d: &[u8], form: Form, at: usize) -> bool
    ensures { result ≡ ended d.now form at }
{
    match form {
        Form::Definite => at == d.len(),
        Form::Indefinite => zeros_end(d, at),
    }
}

// Where the entries of a list start: Ok of a well-formed list, Err of a malformed one, 0 if it has no head.
pub fn parse(d: &[u8]) -> Result<usize, usize>
    ensures { result ≡ listed d.now }
{
    let Some(h) = head(d) else {
        return Err(0);
    };
    let e = walk(d, h.first, d.len() / 4);
    if ended(d, h.form, e) {
        Ok(h.first)
    } else {
        Err(h.first)
    }
}
