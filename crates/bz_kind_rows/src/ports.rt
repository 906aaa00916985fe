//! The ports that kinds have.

use bz_model::ChanKind;

/// A port of a kind: its name, what its channel carries, whether it is the passive end, and whether it is an array of ports.
#[derive(Clone, Copy, PartialEq, Eq)]
pub struct PortRow {
    pub name: &'static str,
    pub kind: ChanKind,
    pub passive: bool,
    pub array: bool,
}

// A port by its side, whether it is an array of ports, what its channel carries, and its name.
macro_rules! port {
    (passive $kind:ident $name:literal) => {
        port!(true, false, $kind, $name)
    };
    (passive array $kind:ident $name:literal) => {
        port!(true, true, $kind, $name)
    };
    (active $kind:ident $name:literal) => {
        port!(false, false, $kind, $name)
    };
    (active array $kind:ident $name:literal) => {
        port!(false, true, $kind, $name)
    };
    ($passive:literal, $array:literal, $kind:ident, $name:literal) => {
        PortRow {
            name: $name,
            kind: ChanKind::$kind,
            passive: $passive,
            array: $array,
        }
    };
}

pub(crate) const ACTIVATE: PortRow = port!(passive Sync "activate");

pub(crate) const ACTIVATE_OUT: PortRow = port!(active Sync "activateOut");

pub(crate) const GUARD: PortRow = port!(active Pull "guard");

pub(crate) const INDEX: PortRow = port!(active Pull "index");

pub(crate) const REPLIED: PortRow = port!(passive Pull "out");

pub(crate) const PULLS_A: PortRow = port!(active Pull "inpA");

pub(crate) const PULLS_B: PortRow = port!(active Pull "inpB");

pub(crate) const PULLS_LOW: PortRow = port!(active Pull "ls");

pub(crate) const PULLS_HIGH: PortRow = port!(active Pull "ms");

pub(crate) const PUSHES_LOW: PortRow = port!(active Push "ls");

pub(crate) const PUSHES_HIGH: PortRow = port!(active Push "ms");

pub(crate) const PULLS_EACH: PortRow = port!(active array Pull "inp");

pub(crate) const CALLED: PortRow = port!(passive Sync "inp");

pub(crate) const PUSHED: PortRow = port!(passive Push "inp");

pub(crate) const PULLS: PortRow = port!(active Pull "inp");

pub(crate) const PUSHES: PortRow = port!(active Push "out");

pub(crate) const CALLS_EACH: PortRow = port!(active array Sync "out");

pub(crate) const PUSHES_EACH: PortRow = port!(active array Push "out");

pub(crate) const WRITTEN: PortRow = port!(passive Push "write");

pub(crate) const READ_EACH: PortRow = port!(passive array Pull "read");

pub(crate) const CALLED_EACH: PortRow = port!(passive array Sync "inp");

pub(crate) const PUSHED_EACH: PortRow = port!(passive array Push "inp");

pub(crate) const PULLED_EACH: PortRow = port!(passive array Pull "inp");

pub(crate) const REPLIED_EACH: PortRow = port!(passive array Pull "out");

pub(crate) const CALLS: PortRow = port!(active Sync "out");

pub(crate) const PULLS_OUT: PortRow = port!(active Pull "out");

pub(crate) const CALLED_A: PortRow = port!(passive Sync "inpA");

pub(crate) const CALLED_B: PortRow = port!(passive Sync "inpB");

pub(crate) const CALLS_A: PortRow = port!(active Sync "outA");

pub(crate) const CALLS_B: PortRow = port!(active Sync "outB");

pub(crate) const SIGNAL: PortRow = port!(active Sync "signal");

pub(crate) const GUARDED: PortRow = port!(passive Pull "guard");
