// The refusals (docs/REFERENCE.md, 'Refusals'), under the names of the Rust's errors.rs where it has them.
#![tactic(auto)]

ghost use Rattle.std.specs.Prelude.{◌≡◌};
ghost use Rattle.errors.specs.Refusals.{number_of, details_of, listed};

#[derive(Clone, Copy)]
pub enum Refusal {
    EmptyInstructions,
    UnexpectedEOB,
    StackUnderflow,
    StackOverflow,
    InvalidType,
    TypeMismatch,
    MultiplicationOverflowed,
    MaxStatesError,
    TaskNotFound(u32),
    InvalidTaskField(u32),
    InvalidStatus(u32),
    InvalidInstructionsIndex(u32),
    MSliceParamOverflow,
    MSliceOutOfBounds { index: u32, size: u32 },
    BytesToStringConversionError,
    AlignmentMismatch,
    SliceSizeMismatch,
    TableFull,
    TitleTooLong,
    PoolFull,
    MemoryTooShort,
    SaveBufferTooShort,
    BadImage(usize),
    WrongPhaseOrUnsound,
    NotAdmitted(usize),
    ProgramTooLong,
}

// The details that stand beside a refusal's number.
#[derive(Drop)]
pub enum Details {
    Nothing,
    One(usize),
    Two(usize, usize),
}

// The number of a refusal.
pub fn number_of(refusal: Refusal) -> u32
    ensures { result ≡ number_of refusal }
{
    match refusal {
        Refusal::EmptyInstructions => 1,
        Refusal::UnexpectedEOB => 2,
        Refusal::StackUnderflow => 3,
        Refusal::StackOverflow => 4,
        Refusal::InvalidType => 5,
        Refusal::TypeMismatch => 6,
        Refusal::MultiplicationOverflowed => 7,
        Refusal::MaxStatesError => 8,
        Refusal::TaskNotFound(_) => 9,
        Refusal::InvalidTaskField(_) => 10,
        Refusal::InvalidStatus(_) => 11,
        Refusal::InvalidInstructionsIndex(_) => 12,
        Refusal::MSliceParamOverflow => 13,
        Refusal::MSliceOutOfBounds { index: _, size: _ } => 14,
        Refusal::BytesToStringConversionError => 15,
        Refusal::AlignmentMismatch => 16,
        Refusal::SliceSizeMismatch => 17,
        Refusal::TableFull => 20,
        Refusal::TitleTooLong => 21,
        Refusal::PoolFull => 22,
        Refusal::MemoryTooShort => 23,
        Refusal::SaveBufferTooShort => 24,
        Refusal::BadImage(_) => 25,
        Refusal::WrongPhaseOrUnsound => 26,
        Refusal::NotAdmitted(_) => 27,
        Refusal::ProgramTooLong => 28,
    }
}

// The details of a refusal.
pub fn details_of(refusal: Refusal) -> Details
    ensures { listed result ≡ details_of refusal }
{
    match refusal {
        Refusal::TaskNotFound(id) => Details::One(id as usize),
        Refusal::InvalidTaskField(field) => Details::One(field as usize),
        Refusal::InvalidStatus(state) => Details::One(state as usize),
        Refusal::InvalidInstructionsIndex(index) => Details::One(index as usize),
        Refusal::MSliceOutOfBounds { index, size } => Details::Two(index as usize, size as usize),
        Refusal::BadImage(place) => Details::One(place),
        Refusal::NotAdmitted(place) => Details::One(place),
        _ => Details::Nothing,
    }
}
