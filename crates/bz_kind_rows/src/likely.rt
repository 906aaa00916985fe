//! The kind that a name is likely to be, before all of its bytes are compared.

use bz_model::KindName;

/// The kind of this name, where it is one. Most are told apart by their length and the byte behind `$Brz`.
pub(crate) fn likely(name: &[u8]) -> KindName {
    if name.len() < 8 {
        return KindName::Bar;
    }
    match (name.len(), name[4]) {
        (8, b'L') => KindName::Loop,
        (8, b'F') => KindName::Fork,
        (8, b'H') => KindName::Halt,
        (9, b'W') => KindName::While,
        (9, b'F') => KindName::Fetch,
        (9, b'A') => KindName::Adapt,
        (10, _) => KindName::Concur,
        (11, b'A') => KindName::Arbiter,
        (12, b'S') => KindName::Sequence,
        (12, b'W') => KindName::WireFork,
        (12, b'F') => KindName::ForkPush,
        (12, b'V') => KindName::Variable,
        (12, b'H') => KindName::HaltPush,
        (13, b'U') => KindName::UnaryFunc,
        (13, b'S') => KindName::SynchPull,
        (14, b'B') => KindName::BinaryFunc,
        (14, _) => KindName::Passivator,
        (16, b'D') => KindName::DecisionWait,
        (17, _) => KindName::FalseVariable,
        (18, _) => KindName::PassivatorPush,
        (20, _) => KindName::BinaryFuncConstR,
        (21, _) => KindName::SequenceOptimised,
        (length, _) => likely_by(length, name[5], name[6], name[7]),
    }
}

// The same by the bytes behind that one.
fn likely_by(length: usize, sixth: u8, seventh: u8, eighth: u8) -> KindName {
    match (length, sixth, seventh, eighth) {
        (8, _, b's', _) => KindName::Case,
        (8, _, _, _) => KindName::Call,
        (9, b'l', _, _) => KindName::Slice,
        (9, b'p', _, _) => KindName::Split,
        (9, _, _, _) => KindName::Synch,
        (11, b'o', _, _) => KindName::Combine,
        (11, _, _, _) => KindName::CallMux,
        (12, _, _, b's') => KindName::Constant,
        (12, _, _, _) => KindName::Continue,
        (13, _, b's', _) => KindName::CaseFetch,
        (13, _, _, _) => KindName::CallDemux,
        (_, _, b'm', _) => KindName::CombineEqual,
        (_, _, _, _) => KindName::ContinuePush,
    }
}
