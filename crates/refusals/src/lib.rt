//! The refusals of documents 01 and 02, each with the number that they give it.
#![tactic(auto)]

ghost use Rattle.std.specs.Prelude.{◌≡◌};
ghost use Rattle.refusals.specs.Numbers.{number_of};

#[derive(Clone, Copy, Debug, PartialEq, Eq)]
pub enum Refusal {
    // Load, and by T-07 load of key sets.
    KeySetCount,
    KeySetRepeated,
    ShillHandle,
    ModeCount,
    ModeRepeated,
    Record,
    // Command.
    FreshCount,
    PadByte,
    Output,
    // List.
    ListCount,
    ListRepeated,
    ListOutput,
    // Open.
    Blocks,
    NoneOpens,
    // Seal.
    Payload,
    SealOutput,
    // Accept.
    Response,
    WorkBuffer,
    Authentication,
    // T-04.
    KeyLength,
    ValueLength,
    // T-05.
    ConversionLength,
    Parity,
    BadCharacter,
    // T-06.
    Interface,
}

impl Refusal {
    pub fn number(self) -> u8
        ensures { result ≡ number_of self }
    {
        match self {
            Refusal::KeySetCount => 1,
            Refusal::KeySetRepeated => 2,
            Refusal::ShillHandle => 3,
            Refusal::ModeCount => 4,
            Refusal::ModeRepeated => 5,
            Refusal::Record => 6,
            Refusal::FreshCount => 8,
            Refusal::PadByte => 9,
            Refusal::Output => 10,
            Refusal::ListCount => 11,
            Refusal::ListRepeated => 12,
            Refusal::ListOutput => 13,
            Refusal::Blocks => 14,
            Refusal::NoneOpens => 15,
            Refusal::Payload => 16,
            Refusal::SealOutput => 17,
            Refusal::Response => 18,
            Refusal::WorkBuffer => 19,
            Refusal::Authentication => 20,
            Refusal::KeyLength => 21,
            Refusal::ValueLength => 22,
            Refusal::ConversionLength => 23,
            Refusal::Parity => 24,
            Refusal::BadCharacter => 25,
            Refusal::Interface => 26,
        }
    }
}
