//! What a conversion of door numbers returns and leaves in the output (document 02, T-05).
#![tactic(auto)]

ghost use Rattle.std.specs.Prelude.{◌≡◌, ℕ, ◌<◌, ◌≤◌, Bool, cond, length, IfOk};
ghost use Rattle.refusals.specs.Numbers.{number_told};
ghost use Rattle.octets.specs.Lists.{over};
ghost use Rattle.conversion.specs.Conversion.{misfit, made, each};
ghost use Rattle.conversion.specs.Told.{told, left};

use refusals::Refusal;

// What a conversion returns: the number, and the result's length. A C struct, so the number has the length beside it.
#[repr(C)]
#[derive(Clone, Copy)]
pub struct Converted {
    pub number: u8,
    pub length: usize,
}

// Whether an input of so many bytes is no input of `wanted`, or an output of `room` bytes too short for a result of `res`.
#[tactic(auto, unfolding(crate::specs::Conversion::misfit))]
pub fn misfit(input: usize, wanted: usize, room: usize, res: usize) -> bool
    ensures { result ≡ misfit input wanted room res }
{
    input != wanted || room < res
}

// The same as a check.
pub fn fits(input: usize, wanted: usize, room: usize, res: usize) -> Result<(), Refusal>
    ensures { number_told result ≡ cond (misfit input wanted room res) 23 0 }
{
    if misfit(input, wanted, room, res) {
        return Err(Refusal::ConversionLength);
    }
    Ok(())
}

// Whether `test` holds of every character. Every one is looked at.
pub fn each<F: Fn(u8) -> bool>(s: &[u8], test: F) -> bool
    requires { F.IsAlwaysCallable test }
    ensures { (p : ℕ → Bool) → ((c : ℕ) (r : Bool) → c < 256 → F.post test c r → r ≡ p c) → result ≡ each p s.now }
{
    let mut ok = true;
    for c in s {
        ok = octets::both(ok, test(*c));
    }
    ok
}

// The number alone.
pub fn declined(number: u8) -> Converted
    ensures { result ≡ record { number = number; length = 0 } }
{
    Converted {
        number: number,
        length: 0,
    }
}

// The result, written over the start of the output, and nothing else.
pub fn done(res: &[u8], out: &mut [u8]) -> Converted
    requires { length res.now ≤ length out.old }
    ensures value { result ≡ made res.now }
    ensures out_after { out.new ≡ over out.old 0 res.now }
{
    octets::copy_at(out, 0, res);
    Converted {
        number: 0,
        length: res.len(),
    }
}

// A result or a refusal.
pub fn told<const N: usize>(made: Result<[u8; N], Refusal>, out: &mut [u8]) -> Converted
    requires { IfOk made (λ res. N ≤ length out.old) }
    ensures value { result ≡ told made.entry }
    ensures out_after { out.new ≡ left made.entry out.old }
{
    match made {
        Ok(res) => done(&res, out),
        Err(refusal) => declined(refusal.number()),
    }
}
