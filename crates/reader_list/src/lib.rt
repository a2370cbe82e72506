//! The reader's List: the initial command for its key sets.
#![tactic(auto)]

ghost use Rattle.std.specs.Prelude.{◌≡◌, ◌+◌, ◌*◌, ◌≤◌, IfOk, length};
ghost use Rattle.octets.specs.Lists.{over};
ghost use Rattle.list.specs.Encoding.{short_entries};
ghost use Rattle.refusals.specs.Numbers.{number_told};
ghost use Rattle.reader_list.specs.List.{numbers, list_command, list_number, listed, list_output};

use plaid_types::{KeySetId, Reader};
use refusals::Refusal;

// What List hands back: the number, and the command's length.
#[repr(C)]
#[derive(Clone, Copy)]
pub struct Written {
    pub number: u8,
    pub length: usize,
}

fn numbers(ids: [KeySetId; Reader::IDS]) -> [u16; Reader::IDS]
    ensures { result ≡ numbers ids }
{
    ids.map(|k| k.0)
}

// The entries, each 04 02 and the KeySetID, from place 7 on.
fn entries(ids: &[u16], out: &mut [u8])
    requires { 7 + 4 * length ids.now ≤ length out.old }
    ensures { out.new ≡ over out.old 7 (short_entries ids.now) }
{
    for (i, id) in ids.iter().enumerate() {
        let [high, low] = id.to_be_bytes();
        octets::copy_at(out, 7 + 4 * i, &[4u8, 2, high, low]);
    }
}

// The command of these KeySetIDs, and its length.
fn command(ids: &[u16], out: &mut [u8]) -> usize
    requires { (length ids.now ≤ 16) × (4 * length ids.now + 8 ≤ length out.old) }
    ensures value { result ≡ length (list_command ids.now) }
    ensures out_after { out.new ≡ over out.old 0 (list_command ids.now) }
{
    let n = 4 * ids.len();
    let head = [0u8, 0x87, 0, 0, (n + 2) as u8, 0x30, n as u8];
    octets::copy_at(out, 0, &head);
    entries(ids, out);
    let last = [0u8];
    octets::copy_at(out, n + 7, &last);
    n + 8
}

// The KeySetIDs' numbers, if no fault applies: the first in the order written is given.
fn checked(
    ids: [KeySetId; Reader::IDS],
    count: usize,
    room: usize,
) -> Result<[u16; Reader::IDS], Refusal>
    ensures number { number_told result ≡ list_number ids count room }
    ensures value { IfOk result (λ all. (all ≡ numbers ids) × (count ≤ 16) × (4 * count + 8 ≤ room)) }
{
    if count == 0 {
        return Err(Refusal::ListCount);
    }
    if Reader::IDS < count {
        return Err(Refusal::ListCount);
    }
    let all = numbers(ids);
    if load::repeats(&all[..count]) {
        return Err(Refusal::ListRepeated);
    }
    if room < 4 * count + 8 {
        return Err(Refusal::ListOutput);
    }
    Ok(all)
}

pub fn list(ids: [KeySetId; Reader::IDS], count: usize, out: &mut [u8]) -> Written
    ensures value { result ≡ listed ids count (length out.old) }
    ensures out_after { out.new ≡ list_output ids count out.old }
{
    match checked(ids, count, out.len()) {
        Ok(all) => {
            let given = &all[..count];
            let length = command(given, out);
            Written { number: 0, length }
        }
        Err(r) => Written {
            number: r.number(),
            length: 0,
        },
    }
}
