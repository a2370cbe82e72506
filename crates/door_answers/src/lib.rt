//! The answer of the program `door` to a line of its input (document 02, T-05): the line's other form, or its number and the reason in words.
#![tactic(auto)]

ghost use Rattle.std.specs.Prelude.{◌≡◌, ◌+◌, ◌*◌, ◌≤◌, ◌++◌, min, length};
ghost use Rattle.door_answers.specs.Answer.{fault, wrong_length, apart, wiegand_text, uuid_text, in_hexadecimal, of_record, of_uuid_record, verdict, heading, answer};

pub use printing::Text;

// How many bytes an answer has room for.
pub const ROOM: usize = 300;

// The number of a line that is refused, and the reason. A number and no enum, since `Converted` is a C struct and has it as a number.
fn fault(text: &mut Text<ROOM>, number: u8, is_record: bool)
    requires { length text.old + 60 ≤ ROOM }
    ensures written { text.new ≡ text.old ++ fault number is_record }
    ensures upper_bound { length text.new ≤ length text.old + 60 }
{
    match number {
        25 => text.put(b": 25, a bad character"),
        24 if is_record => text.put(b": 24, wrong parity, or a bit set above the 26"),
        24 => text.put(b": 24, wrong parity"),
        _ => text.put(b": 23, wrong length"),
    }
}

// The same of a line that is none of the four, by its length.
fn wrong_length(text: &mut Text<ROOM>, n: usize)
    requires { length text.old + 100 ≤ ROOM }
    ensures written { text.new ≡ text.old ++ wrong_length n }
    ensures upper_bound { length text.new ≤ length text.old + 100 }
{
    text.put(b": 23, wrong length: ");
    // `as`, since u64 has no From<usize>.
    text.decimal(n as u64);
    text.put(b" bytes, not 26 (Wiegand), 36 (UUID), 8 or 32 (a record)");
}

// Facility and number of a Wiegand number's record.
fn apart(text: &mut Text<ROOM>, four: [u8; 4])
    requires { length text.old + 60 ≤ ROOM }
    ensures written { text.new ≡ text.old ++ apart four }
    ensures upper_bound { length text.new ≤ length text.old + 60 }
{
    text.put(b", facility ");
    text.decimal(u64::from(wiegand_parts::facility(four)));
    text.put(b", number ");
    text.decimal(u64::from(wiegand_parts::number(four)));
}

// A Wiegand number as text.
fn wiegand_text(text: &mut Text<ROOM>, line: &[u8])
    requires { (length line.now ≡ 26) × (length text.old + 100 ≤ ROOM) }
    ensures written { text.new ≡ text.old ++ wiegand_text line.now }
    ensures upper_bound { length text.new ≤ length text.old + 100 }
{
    let mut record = [0u8; 4];
    let made = wiegand::to_record(line, &mut record);
    if made.number != 0 {
        return fault(text, made.number, false);
    }
    text.put(b" = record ");
    text.hex(&record);
    apart(text, record);
}

// A Wiegand number's record.
fn of_record(text: &mut Text<ROOM>, four: [u8; 4])
    requires { length text.old + 100 ≤ ROOM }
    ensures written { text.new ≡ text.old ++ of_record four }
    ensures upper_bound { length text.new ≤ length text.old + 100 }
{
    let mut other = [0u8; 26];
    let made = wiegand::to_text(&four, &mut other);
    if made.number != 0 {
        return fault(text, made.number, true);
    }
    text.put(b" = Wiegand ");
    text.put(&other);
    apart(text, four);
}

// The same in hexadecimal.
fn wiegand_record(text: &mut Text<ROOM>, line: &[u8])
    requires { (length line.now ≡ 8) × (length text.old + 100 ≤ ROOM) }
    ensures written { text.new ≡ text.old ++ in_hexadecimal line.now of_record }
    ensures upper_bound { length text.new ≤ length text.old + 100 }
{
    if !hexadecimal::are_digits(line) {
        return fault(text, 25, true);
    }
    let mut four = [0u8; 4];
    hexadecimal::read_digits(line, &mut four, 0);
    of_record(text, four);
}

// A UUID as text.
fn uuid_text(text: &mut Text<ROOM>, line: &[u8])
    requires { (length line.now ≡ 36) × (length text.old + 100 ≤ ROOM) }
    ensures written { text.new ≡ text.old ++ uuid_text line.now }
    ensures upper_bound { length text.new ≤ length text.old + 100 }
{
    let mut record = [0u8; 16];
    let made = uuids::to_record(line, &mut record);
    if made.number != 0 {
        return fault(text, made.number, false);
    }
    text.put(b" = record ");
    text.hex(&record);
}

// A UUID's record.
fn of_uuid_record(text: &mut Text<ROOM>, sixteen: [u8; 16])
    requires { length text.old + 100 ≤ ROOM }
    ensures written { text.new ≡ text.old ++ of_uuid_record sixteen }
    ensures upper_bound { length text.new ≤ length text.old + 100 }
{
    let mut other = [0u8; 36];
    let made = uuids::to_text(&sixteen, &mut other);
    if made.number != 0 {
        return fault(text, made.number, true);
    }
    text.put(b" = UUID ");
    text.put(&other);
}

// The same in hexadecimal.
fn uuid_record(text: &mut Text<ROOM>, line: &[u8])
    requires { (length line.now ≡ 32) × (length text.old + 100 ≤ ROOM) }
    ensures written { text.new ≡ text.old ++ in_hexadecimal line.now of_uuid_record }
    ensures upper_bound { length text.new ≤ length text.old + 100 }
{
    if !hexadecimal::are_digits(line) {
        return fault(text, 25, true);
    }
    let mut sixteen = [0u8; 16];
    hexadecimal::read_digits(line, &mut sixteen, 0);
    of_uuid_record(text, sixteen);
}

// What follows the line that is shown: its other form, or why it has none. `start` has the line's first bytes.
fn verdict(text: &mut Text<ROOM>, start: &[u8], n: usize)
    requires { (length start.now ≡ min n 40) × (length text.old + 100 ≤ ROOM) }
    ensures written { text.new ≡ text.old ++ verdict start.now n }
    ensures upper_bound { length text.new ≤ length text.old + 100 }
{
    match n {
        26 => wiegand_text(text, start),
        36 => uuid_text(text, start),
        8 => wiegand_record(text, start),
        32 => uuid_record(text, start),
        _ => wrong_length(text, n),
    }
}

// The line as it is shown: whole, or its first bytes and two dots.
fn heading(text: &mut Text<ROOM>, start: &[u8], n: usize)
    requires { length text.old + 4 * length start.now + 2 ≤ ROOM }
    ensures written { text.new ≡ text.old ++ heading start.now n }
    ensures upper_bound { length text.new ≤ length text.old + 4 * length start.now + 2 }
{
    text.shown(start);
    if start.len() < n {
        text.put(b"..");
    }
}

// The answer to a line of n bytes. `start` has the line's first bytes, forty of a longer one.
pub fn answer(start: &[u8], n: usize) -> Text<ROOM>
    requires { length start.now ≡ min n 40 }
    ensures written { result ≡ answer start.now n }
    ensures upper_bound { length result ≤ 300 }
{
    let mut text = Text::new();
    write_answer(&mut text, start, n);
    text
}

// The same in a text that has no byte yet: a text by value would be copied at each line.
pub fn write_answer(text: &mut Text<ROOM>, start: &[u8], n: usize)
    requires { (length start.now ≡ min n 40) × (length text.old ≡ 0) }
    ensures written { text.new ≡ answer start.now n }
    ensures upper_bound { length text.new ≤ 300 }
{
    heading(text, start, n);
    verdict(text, start, n);
    text.put(b"\n");
}
