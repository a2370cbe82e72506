//! What is checked of a call before its command is run.
#![tactic(auto)]

ghost use Rattle.std.specs.Prelude.{◌≡◌, cond, ◌≤◌, length, drop};
ghost use Rattle.frame.specs.Frame.{frame_of, known_ins, whole, status_of};
ghost use Rattle.frame.specs.Declines.{no_zero, pad_bytes, verdict};
ghost use Rattle.frame.specs.Told.{fault_status, status_told, FromNumber, FromFault, verdict_told};

use plaid_types::{Answer, Fresh, Interface};
use refusals::Refusal;

// A fault of a frame.
#[derive(Clone, Copy, Debug, PartialEq, Eq)]
pub enum Fault {
    WrongLength,
    WrongClass,
    WrongInstruction,
    WrongParameters,
}

impl Fault {
    // Its status of ISO/IEC 7816-4.
    pub fn status(self) -> u16
        ensures { result ≡ fault_status self }
    {
        match self {
            Fault::WrongLength => 0x6700,
            Fault::WrongClass => 0x6E00,
            Fault::WrongInstruction => 0x6D00,
            Fault::WrongParameters => 0x6A86,
        }
    }
}

// Why a call is declined: by a number of the documents, or by a status.
#[derive(Clone, Copy, Debug, PartialEq, Eq)]
pub enum Decline {
    Number(Refusal),
    Status(Fault),
}

impl From<Refusal> for Decline {
    ghost from_gives = { FromNumber };

    fn from(r: Refusal) -> Decline {
        Decline::Number(r)
    }
}

impl From<Fault> for Decline {
    ghost from_gives = { FromFault };

    fn from(s: Fault) -> Decline {
        Decline::Status(s)
    }
}

// Every byte is looked at: no `all`, which ends at the first zero.
fn has_no_zero(s: &[u8]) -> bool
    ensures { result ≡ no_zero s.now }
{
    s.iter().fold(true, |ok, b| octets::both(ok, *b != 0))
}

// The part is taken first: `skip` has one more test at each turn of the loop, some 2,600 instructions a command.
pub fn no_zero(s: &[u8], from: usize) -> bool
    ensures { result ≡ no_zero (drop from s.now) }
{
    has_no_zero(&s[from.min(s.len())..])
}

fn known_ins(i: u8) -> bool
    ensures { result ≡ known_ins i }
{
    matches!(i, 0x87 | 0x86)
}

fn rest_status(cmd: &[u8]) -> Result<(), Fault>
    ensures { status_told result ≡ cond (whole (length cmd.now) (frame_of cmd.now)) 0x9000 0x6700 }
{
    let n = cmd.len();
    if n < 7 {
        return Err(Fault::WrongLength);
    }
    let lc = usize::from(cmd[4]);
    if n != lc + 6 {
        return Err(Fault::WrongLength);
    }
    if cmd[n - 1] != 0 {
        return Err(Fault::WrongLength);
    }
    Ok(())
}

pub fn status(cmd: &[u8]) -> Result<(), Fault>
    ensures { status_told result ≡ status_of (length cmd.now) (frame_of cmd.now) }
{
    if cmd.len() < 4 {
        return Err(Fault::WrongLength);
    }
    if cmd[0] != 0 {
        return Err(Fault::WrongClass);
    }
    if !known_ins(cmd[1]) {
        return Err(Fault::WrongInstruction);
    }
    if cmd[2] != 0 || cmd[3] != 0 {
        return Err(Fault::WrongParameters);
    }
    rest_status(cmd)
}

// Whether no pad byte is 0. Of the shortest keys the compiler is told the length, so that it knows how many there are.
fn pads_nonzero(l: usize, fresh: &[u8]) -> bool
    requires { l ≤ 32 }
    ensures { result ≡ no_zero (pad_bytes l fresh.now) }
{
    if l == 16 {
        return no_zero(fresh, plaid_types::str1_length(16));
    }
    no_zero(fresh, plaid_types::str1_length(l))
}

// The checks of a call on interface i to a card whose keys have l bytes.
pub fn check(i: usize, l: usize, cmd: &[u8], fresh: &[u8], room: usize) -> Result<(), Decline>
    requires { l ≤ 32 }
    ensures { verdict_told result ≡ verdict i l (length cmd.now) (frame_of cmd.now) fresh.now room }
{
    Interface::try_from(i)?;
    if fresh.len() != Fresh::ALL {
        return Err(Decline::Number(Refusal::FreshCount));
    }
    if !pads_nonzero(l, fresh) {
        return Err(Decline::Number(Refusal::PadByte));
    }
    if room < Answer::INITIAL {
        return Err(Decline::Number(Refusal::Output));
    }
    status(cmd)?;
    Ok(())
}
