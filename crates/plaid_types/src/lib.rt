//! What a card holds, takes and answers (document 01, "The card").
#![tactic(auto)]

ghost use Rattle.std.specs.Prelude.{◌≡◌, cond, ◌+◌, ◌≤◌, length};
ghost use Rattle.plaid_types.specs.Keys.{lawful, wide, value_of, no_value, str1_length};
ghost use Rattle.plaid_types.specs.Tries.{NamesInterface, no_tries, one_more, tries_after};
ghost use Rattle.plaid_types.specs.Cards.{no_session, with_session, with_tries, with_sets};

use refusals::Refusal;

// The two kinds of identifier are types of their own: a key set number is never taken where a mode number belongs.
#[repr(C)]
#[derive(Clone, Copy, Debug, PartialEq, Eq)]
pub struct KeySetId(pub u16);

#[repr(C)]
#[derive(Clone, Copy, Debug, PartialEq, Eq)]
pub struct OpModeId(pub u16);

// A key, RND or KeysHash as a caller gives or gets it (T-04): so many bytes, from the first on. It can hold 32.
#[repr(C)]
#[derive(Clone, Copy)]
pub struct Value {
    pub length: u8,
    pub bytes: [u8; Value::MOST],
}

impl Value {
    pub const MOST: usize = 32;

    pub fn of(k: &[u8]) -> Value
        requires { length k.now ≤ 32 }
        ensures { result ≡ value_of k.now }
    {
        Value {
            length: k.len() as u8,
            bytes: wide(k),
        }
    }

    pub fn none() -> Value
        ensures { result ≡ no_value }
    {
        Value {
            length: 0,
            bytes: [0u8; Value::MOST],
        }
    }
}

// Bytes as a card or a value holds them: zeros after them.
pub fn wide(k: &[u8]) -> [u8; Value::MOST]
    requires { length k.now ≤ 32 }
    ensures { result ≡ wide k.now }
{
    let mut w = [0u8; Value::MOST];
    octets::copy_at(&mut w, 0, k);
    w
}

// L of a card. A load makes it one of the three.
pub fn lawful(l: usize) -> usize
    ensures { result ≡ lawful l }
{
    if key_expansion::is_key_length(l) {
        return l;
    }
    16
}

// How many bytes STR1 has: KeySetID, DivData, RND1, RND1.
pub fn str1_length(l: usize) -> usize
    requires { l ≤ 32 }
    ensures { result ≡ str1_length l }
{
    2 + 16 + 2 * l
}

// A key set as a load gives it.
#[repr(C)]
#[derive(Clone, Copy)]
pub struct KeySet {
    pub id: KeySetId,
    pub handle: u8,
    pub fa_key: Value,
}

// A mode as a load gives it: its record is a part of the record area.
#[repr(C)]
#[derive(Clone, Copy)]
pub struct Mode {
    pub id: OpModeId,
    pub start: usize,
    pub len: usize,
}

// A slot of the card, empty or not. A card holds its keys in the first L of 32 bytes.
// `held` is a flag beside the values, and no Option: these are the fields that C reads.
#[repr(C)]
#[derive(Clone, Copy)]
pub struct KeySetSlot {
    pub held: bool,
    pub id: KeySetId,
    pub handle: u8,
    pub fa_key: [u8; Value::MOST],
}

// `held` as above.
#[repr(C)]
#[derive(Clone, Copy)]
pub struct ModeSlot {
    pub held: bool,
    pub id: OpModeId,
    pub start: usize,
    pub len: usize,
}

// No session, or an open one with KeySetID, RND1 and, by T-07, its FAKey. `opened` is a flag for C too.
#[repr(C)]
#[derive(Clone, Copy)]
pub struct Session {
    pub opened: bool,
    pub id: KeySetId,
    pub rnd1: [u8; Value::MOST],
    pub fa_key: [u8; Value::MOST],
}

impl Session {
    // A new card has none.
    pub fn none() -> Session
        ensures { result ≡ no_session }
    {
        Session {
            opened: false,
            id: KeySetId(0),
            rnd1: [0u8; Value::MOST],
            fa_key: [0u8; Value::MOST],
        }
    }

    // A session closes: nothing of it is left.
    pub fn close(mut self) -> Session
        ensures { result ≡ no_session }
    {
        let id = KeySetId(0);
        let rnd1 = [0u8; Value::MOST];
        let fa_key = [0u8; Value::MOST];
        self.opened = false;
        self.id = id;
        self.rnd1 = rnd1;
        self.fa_key = fa_key;
        self
    }
}

// The interface of a command call (T-06).
#[derive(Clone, Copy, Debug, PartialEq, Eq)]
pub enum Interface {
    Contact,
    Contactless,
}

// A call gives it as a number.
impl TryFrom<usize> for Interface {
    type Error = Refusal;

    ghost try_from_gives = { NamesInterface };

    fn try_from(i: usize) -> Result<Self, Refusal> {
        match i {
            0 => Ok(Interface::Contact),
            1 => Ok(Interface::Contactless),
            _ => Err(Refusal::Interface),
        }
    }
}

// The failed tries of a card (T-06): refused final commands, counted for each interface.
#[repr(C)]
#[derive(Clone, Copy)]
pub struct Tries {
    pub contact: u16,
    pub contactless: u16,
}

impl Tries {
    // Where a count holds.
    pub const MOST: u16 = 65535;

    // A new card has none.
    pub fn none() -> Tries
        ensures { result ≡ no_tries }
    {
        Tries {
            contact: 0,
            contactless: 0,
        }
    }

    // After a call on interface i, which was a refused final command or was none.
    pub fn after(self, i: usize, refused: bool) -> Tries
        ensures { result ≡ tries_after i refused self }
    {
        match Interface::try_from(i) {
            Ok(Interface::Contact) => Tries {
                contact: counted(refused, self.contact),
                contactless: self.contactless,
            },
            Ok(Interface::Contactless) => Tries {
                contact: self.contact,
                contactless: counted(refused, self.contactless),
            },
            Err(_) => self,
        }
    }
}

// One more, where there is a try to count. A count holds at the most that it can be.
fn counted(one: bool, n: u16) -> u16
    ensures { result ≡ cond one (one_more n) n }
{
    n.saturating_add(u16::from(one)).min(Tries::MOST)
}

#[repr(C)]
#[derive(Clone, Copy)]
pub struct Card {
    pub sets: [KeySetSlot; Card::KEY_SETS],
    pub modes: [ModeSlot; Card::MODES],
    pub area: [u8; Card::AREA],
    pub div_data: [u8; 16],
    pub shill_key: [u8; Value::MOST],
    pub shill_handle: u8,
    pub key_length: usize,
    pub reply_size: usize,
    pub session: Session,
    pub tries: Tries,
}

impl Card {
    pub const KEY_SETS: usize = 8;

    pub const MODES: usize = 16;

    pub const AREA: usize = 1024;

    pub const RECORD: usize = 64;

    // The largest reply size B.
    pub const REPLY_MOST: usize = 6;

    // The same card with another state: session and failed tries.
    pub fn with_state(mut self, s: Session, t: Tries) -> Card
        ensures { result ≡ with_tries (with_session self s) t }
    {
        self.session = s;
        self.tries = t;
        self
    }

    // The same card with another table of key sets (T-07).
    pub fn with_sets(mut self, sets: [KeySetSlot; Card::KEY_SETS]) -> Card
        ensures { result ≡ with_sets self sets }
    {
        self.sets = sets;
        self
    }
}

// What a command call answers beside the output bytes.
#[repr(C)]
#[derive(Clone, Copy, Default)]
pub struct Answer {
    pub number: u8,
    pub status: u16,
    pub comparisons: usize,
    pub decipherments: usize,
    pub encipherments: usize,
    pub expansions: usize,
    pub hash_blocks: usize,
    pub length: usize,
    pub handle: u8,
}

impl Answer {
    pub const INITIAL: usize = 256;

    // A final answer is 16B bytes.
    pub const FINAL_LEAST: usize = 32;

    pub const FINAL_MOST: usize = 96;

    pub const OK: u16 = 0x9000;
}

// What a command call returns. The work sum is beside the answer, so that nobody who sends an answer sends it along.
#[repr(C)]
#[derive(Clone, Copy)]
pub struct Outcome {
    pub answer: Answer,
    pub sum: u32,
    pub card: Card,
}

// The fresh bytes of a command call: F is as many as STR1 has, the others are the pad bytes.
#[derive(Clone, Copy)]
pub struct Fresh;

impl Fresh {
    pub const ALL: usize = 253;
}

// What a reader lists and seals, at most.
#[derive(Clone, Copy)]
pub struct Reader;

impl Reader {
    pub const IDS: usize = 16;

    // The longest text that 240 bytes hold with its padding.
    pub const TEXT: usize = 239;
}
