//! The calls of dense and pruned bitmaps that can be timed, by name.

/// A call that is run many times.
#[derive(Clone, Copy)]
pub enum Call {
    Copy,
    Push,
    Pop,
    Get,
    Set,
    FlipAll,
    SetAll,
    And,
    Or,
    Xor,
    Equal,
    Hash,
    CountOnes,
    IsUnset,
    Iter,
    OnesIter,
    ExtendSame,
    ExtendSameShifted,
    ExtendOther,
    ExtendOtherShifted,
    ExtendTo,
    Truncate,
    Clone,
    ToBools,
    FromBools,
    Write,
    Read,
    PrunablePush,
    PrunablePop,
    PushByte,
    PushChunk,
    Prune,
    Unprune,
    GetBit,
    SetBit,
}

const NAMES: [(&str, Call); 35] = [
    ("copy", Call::Copy),
    ("push", Call::Push),
    ("pop", Call::Pop),
    ("get", Call::Get),
    ("set", Call::Set),
    ("flip_all", Call::FlipAll),
    ("set_all", Call::SetAll),
    ("and", Call::And),
    ("or", Call::Or),
    ("xor", Call::Xor),
    ("equal", Call::Equal),
    ("hash", Call::Hash),
    ("count_ones", Call::CountOnes),
    ("is_unset", Call::IsUnset),
    ("iter", Call::Iter),
    ("ones_iter", Call::OnesIter),
    ("extend_same", Call::ExtendSame),
    ("extend_same_shifted", Call::ExtendSameShifted),
    ("extend_other", Call::ExtendOther),
    ("extend_other_shifted", Call::ExtendOtherShifted),
    ("extend_to", Call::ExtendTo),
    ("truncate", Call::Truncate),
    ("clone", Call::Clone),
    ("to_bools", Call::ToBools),
    ("from_bools", Call::FromBools),
    ("write", Call::Write),
    ("read", Call::Read),
    ("prunable_push", Call::PrunablePush),
    ("prunable_pop", Call::PrunablePop),
    ("push_byte", Call::PushByte),
    ("push_chunk", Call::PushChunk),
    ("prune", Call::Prune),
    ("unprune", Call::Unprune),
    ("get_bit", Call::GetBit),
    ("set_bit", Call::SetBit),
];

/// Returns the call that `name` names, if there is one.
pub fn named(name: &str) -> Option<Call> {
    NAMES
        .iter()
        .find(|entry| entry.0 == name)
        .map(|entry| entry.1)
}
