//! The C interface: structs by value and lent slices. A slice passes as a pointer and then a length. `plaid_c` exports each function to C.
#![tactic(auto)]

ghost use Rattle.std.specs.Prelude.{◌≡◌, length};
ghost use Rattle.octets.specs.Lists.{over};
ghost use Rattle.card.specs.Command.{outcome, answer_bytes};
ghost use Rattle.reader_list.specs.List.{listed, list_output};
ghost use Rattle.reader_open.specs.Open.{opened};
ghost use Rattle.reader_seal.specs.Seal.{sealed_of, seal_output};
ghost use Rattle.reader_accept.specs.Accept.{accepted_of, work_after};
ghost use Rattle.key_change.specs.KeyChange.{sets_loaded};
ghost use Rattle.conversion.specs.Conversion.{converted, output_after};
ghost use Rattle.wiegand.specs.Wiegand as wiegand;
ghost use Rattle.uuids.specs.Uuid as uuid;
ghost use Rattle.plaid.specs.Interface.{load_of, record_at};

use conversion::Converted;
use load::Loaded;
use plaid_types::{Card, KeySet, KeySetId, Mode, OpModeId, Outcome, Reader, Tries, Value};
use reader_accept::Accepted;
use reader_list::Written;
use reader_open::Opened;
use reader_seal::Sealed;

// What a load is given with the key sets and the record area. What is past the count is not looked at.
#[repr(C)]
#[derive(Clone, Copy)]
pub struct Given {
    pub key_length: usize,
    pub modes: [Mode; Card::MODES],
    pub mode_count: usize,
    pub div_data: [u8; 16],
    pub shill_key: Value,
    pub shill_handle: u8,
}

// The key sets come in the caller's list, lent.
#[unsafe(no_mangle)]
pub extern "C" fn plaid_load(sets: &[KeySet], given: Given, area: &[u8]) -> Loaded
    ensures { result ≡ load_of sets.now given area.now }
{
    let of = key_set_list::first_eight(sets);
    load::load(
        given.key_length,
        of.sets,
        of.count,
        given.modes,
        given.mode_count,
        area,
        given.div_data,
        given.shill_key,
        given.shill_handle,
    )
}

// A load of key sets onto a card (T-07), from the caller's list, lent.
#[unsafe(no_mangle)]
pub extern "C" fn plaid_load_sets(sets: &[KeySet], card: Card) -> Loaded
    ensures { result ≡ sets_loaded card sets.now }
{
    let of = key_set_list::first_eight(sets);
    key_change::change(card, of.sets, of.count)
}

#[unsafe(no_mangle)]
pub extern "C" fn plaid_command(
    card: Card,
    interface: usize,
    command: &[u8],
    fresh: &[u8],
    out: &mut [u8],
) -> Outcome
    ensures told { result ≡ outcome card interface command.now fresh.now (length out.old) }
    ensures bytes { out.new ≡ over out.old 0 (answer_bytes card interface command.now fresh.now (length out.old)) }
{
    card::command(card, interface, command, fresh, out)
}

// The failed tries of a card (T-06). The card is the caller's, and stays as it is.
#[unsafe(no_mangle)]
pub extern "C" fn plaid_read_tries(card: Card) -> Tries
    ensures { result ≡ card.tries }
{
    card::read_tries(card)
}

// The reader's KeySetIDs in order of preference: the first so many.
#[repr(C)]
#[derive(Clone, Copy)]
pub struct Ids {
    pub ids: [KeySetId; Reader::IDS],
    pub count: usize,
}

#[unsafe(no_mangle)]
pub extern "C" fn plaid_list(of: Ids, out: &mut [u8]) -> Written
    ensures told { result ≡ listed of.ids of.count (length out.old) }
    ensures bytes { out.new ≡ list_output of.ids of.count out.old }
{
    reader_list::list(of.ids, of.count, out)
}

#[unsafe(no_mangle)]
pub extern "C" fn plaid_open(key_length: usize, of: Ids, blocks: &[u8]) -> Opened
    ensures { result ≡ opened key_length of.ids of.count blocks.now }
{
    reader_open::open(key_length, of.ids, of.count, blocks)
}

// What Seal is given with the payload.
#[repr(C)]
#[derive(Clone, Copy)]
pub struct Sealing {
    pub key_length: usize,
    pub fa_key: Value,
    pub div_data: [u8; 16],
    pub rnd1: Value,
    pub rnd2: Value,
    pub mode: OpModeId,
}

#[unsafe(no_mangle)]
pub extern "C" fn plaid_seal(of: Sealing, payload: &[u8], out: &mut [u8]) -> Sealed
    ensures told { result ≡ sealed_of of.key_length of.fa_key of.div_data of.rnd1 of.rnd2 of.mode payload.now (length out.old) }
    ensures bytes { out.new ≡ seal_output of.key_length of.fa_key of.div_data of.rnd1 of.rnd2 of.mode payload.now out.old }
{
    reader_seal::seal(
        of.key_length,
        of.fa_key,
        of.div_data,
        of.rnd1,
        of.rnd2,
        of.mode,
        payload,
        out,
    )
}

// What Accept is given with the response.
#[repr(C)]
#[derive(Clone, Copy)]
pub struct Accepting {
    pub key_length: usize,
    pub keys_hash: Value,
    pub div_data: [u8; 16],
    pub record_length: usize,
}

#[unsafe(no_mangle)]
pub extern "C" fn plaid_accept(of: Accepting, response: &[u8], work: &mut [u8]) -> Accepted
    ensures told { result ≡ accepted_of of.key_length of.keys_hash of.div_data of.record_length response.now (length work.old) }
    ensures bytes { work.new ≡ work_after of.key_length of.keys_hash of.div_data of.record_length response.now work.old }
{
    reader_accept::accept_in(
        of.key_length,
        of.keys_hash,
        of.div_data,
        of.record_length,
        response,
        work,
    )
}

// A part of a buffer: its start, counted from 0, and its length.
#[repr(C)]
#[derive(Clone, Copy)]
pub struct Part {
    pub start: usize,
    pub length: usize,
}

// The record, a part of the work buffer that Accept left. An exported function returns no reference, so it says where the part is.
#[unsafe(no_mangle)]
pub extern "C" fn plaid_record(work: &[u8], of: Accepted) -> Part
    ensures { result ≡ record_at work.now of }
{
    let record = reader_accept::record_of(work, of);
    Part {
        start: 0,
        length: record.len(),
    }
}

// A Wiegand text to its record (T-05).
#[unsafe(no_mangle)]
pub extern "C" fn plaid_wiegand_record(text: &[u8], out: &mut [u8]) -> Converted
    ensures told { result ≡ converted (wiegand.text_number text.now (length out.old)) (wiegand.record_of text.now) }
    ensures bytes { out.new ≡ output_after (wiegand.text_number text.now (length out.old)) (wiegand.record_of text.now) out.old }
{
    wiegand::to_record(text, out)
}

// A record to its Wiegand text.
#[unsafe(no_mangle)]
pub extern "C" fn plaid_wiegand_text(of: &[u8], out: &mut [u8]) -> Converted
    ensures told { result ≡ converted (wiegand.record_number of.now (length out.old)) (wiegand.text_of of.now) }
    ensures bytes { out.new ≡ output_after (wiegand.record_number of.now (length out.old)) (wiegand.text_of of.now) out.old }
{
    wiegand::to_text(of, out)
}

// A UUID's text to its record.
#[unsafe(no_mangle)]
pub extern "C" fn plaid_uuid_record(text: &[u8], out: &mut [u8]) -> Converted
    ensures told { result ≡ converted (uuid.text_number text.now (length out.old)) (uuid.record_of text.now) }
    ensures bytes { out.new ≡ output_after (uuid.text_number text.now (length out.old)) (uuid.record_of text.now) out.old }
{
    uuids::to_record(text, out)
}

// A record to its UUID's text.
#[unsafe(no_mangle)]
pub extern "C" fn plaid_uuid_text(of: &[u8], out: &mut [u8]) -> Converted
    ensures told { result ≡ converted (uuid.record_number of.now (length out.old)) (uuid.text_of of.now) }
    ensures bytes { out.new ≡ output_after (uuid.record_number of.now (length out.old)) (uuid.text_of of.now) out.old }
{
    uuids::to_text(of, out)
}
