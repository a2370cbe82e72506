//! The exports of the static library, for C: each calls the function of `plaid` of its name, and has that function's clauses. A slice passes as a
//! pointer and then a length.
#![tactic(auto)]

ghost use Rattle.std.specs.Prelude.{◌≡◌, length};
ghost use Rattle.octets.specs.Lists.{over};
ghost use Rattle.card.specs.Command.{outcome, answer_bytes};
ghost use Rattle.reader_list.specs.List.{listed, list_output};
ghost use Rattle.reader_open.specs.Open.{opened};
ghost use Rattle.reader_seal.specs.Seal.{sealed_of, seal_output};
ghost use Rattle.reader_accept.specs.Accept.{accepted_of, work_after};
ghost use Rattle.key_change.specs.KeyChange.{sets_loaded};
ghost use Rattle.conversion.specs.Conversion.{converted, output_after};
ghost use Rattle.wiegand.specs.Wiegand as wiegand;
ghost use Rattle.uuids.specs.Uuid as uuid;
ghost use Rattle.plaid.specs.Interface.{load_of, record_at};

use conversion::Converted;
use load::Loaded;
use plaid::{Accepting, Given, Ids, Part, Sealing};
use plaid_types::{Card, KeySet, Outcome, Tries};
use reader_accept::Accepted;
use reader_list::Written;
use reader_open::Opened;
use reader_seal::Sealed;

#[unsafe(no_mangle)]
pub extern "C" fn plaid_load(sets: &[KeySet], given: Given, area: &[u8]) -> Loaded
    ensures { result ≡ load_of sets.now given area.now }
{
    plaid::plaid_load(sets, given, area)
}

#[unsafe(no_mangle)]
pub extern "C" fn plaid_load_sets(sets: &[KeySet], card: Card) -> Loaded
    ensures { result ≡ sets_loaded card sets.now }
{
    plaid::plaid_load_sets(sets, card)
}

#[unsafe(no_mangle)]
pub extern "C" fn plaid_command(
    card: Card,
    interface: usize,
    command: &[u8],
    fresh: &[u8],
    out: &mut [u8],
) -> Outcome
    ensures told { result ≡ outcome card interface command.now fresh.now (length out.old) }
    ensures bytes { out.new ≡ over out.old 0 (answer_bytes card interface command.now fresh.now (length out.old)) }
{
    plaid::plaid_command(card, interface, command, fresh, out)
}

#[unsafe(no_mangle)]
pub extern "C" fn plaid_read_tries(card: Card) -> Tries
    ensures { result ≡ card.tries }
{
    plaid::plaid_read_tries(card)
}

#[unsafe(no_mangle)]
pub extern "C" fn plaid_list(of: Ids, out: &mut [u8]) -> Written
    ensures told { result ≡ listed of.ids of.count (length out.old) }
    ensures bytes { out.new ≡ list_output of.ids of.count out.old }
{
    plaid::plaid_list(of, out)
}

#[unsafe(no_mangle)]
pub extern "C" fn plaid_open(key_length: usize, of: Ids, blocks: &[u8]) -> Opened
    ensures { result ≡ opened key_length of.ids of.count blocks.now }
{
    plaid::plaid_open(key_length, of, blocks)
}

#[unsafe(no_mangle)]
pub extern "C" fn plaid_seal(of: Sealing, payload: &[u8], out: &mut [u8]) -> Sealed
    ensures told { result ≡ sealed_of of.key_length of.fa_key of.div_data of.rnd1 of.rnd2 of.mode payload.now (length out.old) }
    ensures bytes { out.new ≡ seal_output of.key_length of.fa_key of.div_data of.rnd1 of.rnd2 of.mode payload.now out.old }
{
    plaid::plaid_seal(of, payload, out)
}

#[unsafe(no_mangle)]
pub extern "C" fn plaid_accept(of: Accepting, response: &[u8], work: &mut [u8]) -> Accepted
    ensures told { result ≡ accepted_of of.key_length of.keys_hash of.div_data of.record_length response.now (length work.old) }
    ensures bytes { work.new ≡ work_after of.key_length of.keys_hash of.div_data of.record_length response.now work.old }
{
    plaid::plaid_accept(of, response, work)
}

#[unsafe(no_mangle)]
pub extern "C" fn plaid_record(work: &[u8], of: Accepted) -> Part
    ensures { result ≡ record_at work.now of }
{
    plaid::plaid_record(work, of)
}

#[unsafe(no_mangle)]
pub extern "C" fn plaid_wiegand_record(text: &[u8], out: &mut [u8]) -> Converted
    ensures told { result ≡ converted (wiegand.text_number text.now (length out.old)) (wiegand.record_of text.now) }
    ensures bytes { out.new ≡ output_after (wiegand.text_number text.now (length out.old)) (wiegand.record_of text.now) out.old }
{
    plaid::plaid_wiegand_record(text, out)
}

#[unsafe(no_mangle)]
pub extern "C" fn plaid_wiegand_text(of: &[u8], out: &mut [u8]) -> Converted
    ensures told { result ≡ converted (wiegand.record_number of.now (length out.old)) (wiegand.text_of of.now) }
    ensures bytes { out.new ≡ output_after (wiegand.record_number of.now (length out.old)) (wiegand.text_of of.now) out.old }
{
    plaid::plaid_wiegand_text(of, out)
}

#[unsafe(no_mangle)]
pub extern "C" fn plaid_uuid_record(text: &[u8], out: &mut [u8]) -> Converted
    ensures told { result ≡ converted (uuid.text_number text.now (length out.old)) (uuid.record_of text.now) }
    ensures bytes { out.new ≡ output_after (uuid.text_number text.now (length out.old)) (uuid.record_of text.now) out.old }
{
    plaid::plaid_uuid_record(text, out)
}

#[unsafe(no_mangle)]
pub extern "C" fn plaid_uuid_text(of: &[u8], out: &mut [u8]) -> Converted
    ensures told { result ≡ converted (uuid.record_number of.now (length out.old)) (uuid.text_of of.now) }
    ensures bytes { out.new ≡ output_after (uuid.record_number of.now (length out.old)) (uuid.text_of of.now) out.old }
{
    plaid::plaid_uuid_text(of, out)
}
