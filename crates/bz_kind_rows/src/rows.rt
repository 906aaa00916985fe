//! What each kind of component is: a row for each, of data alone, by which nets, notes, lists and reports go.

ghost use Rattle.std.specs.Prelude.{◌≡◌, map};
ghost use Rattle.bz_model.specs.Rows.{kind_name, rows, all_names, word_of};
ghost use Rattle.bz_kind_rows.specs.Table.{seen_row};

use crate::ports::{
    ACTIVATE, ACTIVATE_OUT, CALLED, CALLED_A, CALLED_B, CALLED_EACH, CALLS, CALLS_A, CALLS_B,
    CALLS_EACH, GUARD, GUARDED, INDEX, PULLED_EACH, PULLS, PULLS_A, PULLS_B, PULLS_EACH,
    PULLS_HIGH, PULLS_LOW, PULLS_OUT, PUSHED, PUSHED_EACH, PUSHES, PUSHES_EACH, PUSHES_HIGH,
    PUSHES_LOW, PortRow, READ_EACH, REPLIED, REPLIED_EACH, SIGNAL, WRITTEN,
};
use bz_model::{
    Branches, Callers, DetailRule, EntryOrder, Kind, KindName, LengthRule, ParamMeaning,
    ParamPlace, ParamRow,
};

/// What is known of a kind, whatever its parameters.
pub struct KindRow {
    pub kind: KindName,
    /// Its name in netlists, `$Brz` in front.
    pub name: &'static str,
    /// The sign by which handshake circuits are drawn.
    pub sign: &'static str,
    pub ports: &'static [PortRow],
    pub lengths: Option<LengthRule>,
    pub widths: &'static [WidthRule],
    pub parameters: &'static [ParamRow],
    pub detail: DetailRule,
    pub entries: EntryOrder,
    pub callers: Callers,
    /// The port with whose request its work begins, where that is one.
    pub activation: u32,
    pub branches: Option<Branches>,
    /// Whether it keeps a value under a name of the source.
    pub is_variable: bool,
    /// Whether the order of its active ports says something.
    pub has_ordered_ports: bool,
    /// Whether so much may lead to it that a drawing has stubs for its channels.
    pub is_hub: bool,
}

/// What the widths of a component's channels have to be. Ports are told by their places in the row, from 0.
#[derive(Clone, Copy)]
pub enum WidthRule {
    /// All channels of these ports have one width.
    Equal(&'static [usize]),
    /// Each channel of these ports has width 1.
    One(&'static [usize]),
    /// The width of the first is that of all channels of the others together.
    Sum(usize, &'static [usize]),
    /// The lowest bit and the width of the first together are at most the width of the second.
    Within(usize, usize),
}

const EQUAL_BOTH: &[WidthRule] = &[WidthRule::Equal(&[0, 1])];

const SUM_OF_BOTH: &[WidthRule] = &[WidthRule::Sum(0, &[1, 2])];

const SETS: Option<LengthRule> = Some(LengthRule::Sets);

const EQUAL_ARRAYS: Option<LengthRule> = Some(LengthRule::Equal);

// A parameter that has to be there, or one that may be left out.
macro_rules! parameter {
    (needed $place:expr, $meaning:expr) => {
        parameter!(false, $place, $meaning)
    };
    (optional $place:expr, $meaning:expr) => {
        parameter!(true, $place, $meaning)
    };
    ($optional:literal, $place:expr, $meaning:expr) => {
        ParamRow {
            place: $place,
            meaning: $meaning,
            is_optional: $optional,
        }
    };
}

const SPECIFICATION: &[ParamRow] = &[
    parameter!(needed ParamPlace::Text(0), ParamMeaning::Specification),
];

const WHOLE_READS: &[ParamRow] = &[parameter!(optional ParamPlace::Text(1), ParamMeaning::Empty)];

const WHOLE_READS_LAST: &[ParamRow] = &[
    parameter!(optional ParamPlace::LastText, ParamMeaning::Empty),
];

const CONSTANT: &[ParamRow] = &[parameter!(needed ParamPlace::Number(1), ParamMeaning::Constant)];

const UNARY_FUNC: &[ParamRow] = &[
    parameter!(needed ParamPlace::Text(0), ParamMeaning::Unary),
    parameter!(optional ParamPlace::Flag(0), ParamMeaning::Sign(1)),
];

const BINARY_FUNC: &[ParamRow] = &[
    parameter!(needed ParamPlace::Text(0), ParamMeaning::Binary),
    parameter!(optional ParamPlace::Flag(1), ParamMeaning::Sign(1)),
    parameter!(optional ParamPlace::Flag(2), ParamMeaning::Sign(2)),
];

const BINARY_FUNC_CONST: &[ParamRow] = &[
    parameter!(needed ParamPlace::Text(0), ParamMeaning::Binary),
    parameter!(needed ParamPlace::Number(2), ParamMeaning::ConstantWidth),
    parameter!(needed ParamPlace::Number(3), ParamMeaning::Constant),
    parameter!(optional ParamPlace::Flag(1), ParamMeaning::Sign(1)),
    parameter!(optional ParamPlace::Flag(2), ParamMeaning::ConstantSign),
];

const LOW_BIT: &[ParamRow] = &[parameter!(needed ParamPlace::Number(2), ParamMeaning::Low)];

const SIGN: &[ParamRow] = &[parameter!(optional ParamPlace::Flag(1), ParamMeaning::Sign(1))];

// A kind of which nothing but its ports is to be said.
const PLAIN: KindRow = KindRow {
    kind: KindName::Loop,
    name: "",
    sign: "",
    ports: &[],
    lengths: None,
    widths: &[],
    parameters: &[],
    detail: DetailRule::Nothing,
    entries: EntryOrder::AsPorts,
    callers: Callers::Apart,
    activation: 1,
    branches: None,
    is_variable: false,
    has_ordered_ports: false,
    is_hub: false,
};

// The rows, in the order of the names.
static KINDS: [KindRow; KindName::Bar as usize + 1] = [
    KindRow {
        kind: KindName::Loop,
        name: "$BrzLoop",
        sign: "#",
        ports: &[ACTIVATE, ACTIVATE_OUT],
        ..PLAIN
    },
    KindRow {
        kind: KindName::Sequence,
        name: "$BrzSequence",
        sign: ";",
        ports: &[ACTIVATE, CALLS_EACH],
        has_ordered_ports: true,
        ..PLAIN
    },
    KindRow {
        kind: KindName::SequenceOptimised,
        name: "$BrzSequenceOptimised",
        sign: ";",
        ports: &[ACTIVATE, CALLS_EACH],
        has_ordered_ports: true,
        ..PLAIN
    },
    KindRow {
        kind: KindName::Concur,
        name: "$BrzConcur",
        sign: "‖",
        ports: &[ACTIVATE, CALLS_EACH],
        ..PLAIN
    },
    KindRow {
        kind: KindName::Fork,
        name: "$BrzFork",
        sign: "⋔",
        ports: &[CALLED, CALLS_EACH],
        ..PLAIN
    },
    KindRow {
        kind: KindName::WireFork,
        name: "$BrzWireFork",
        sign: "⋔",
        ports: &[CALLED, CALLS_EACH],
        ..PLAIN
    },
    KindRow {
        kind: KindName::ForkPush,
        name: "$BrzForkPush",
        sign: "⋔",
        ports: &[PUSHED, PUSHES_EACH],
        widths: EQUAL_BOTH,
        ..PLAIN
    },
    KindRow {
        kind: KindName::While,
        name: "$BrzWhile",
        sign: "do",
        ports: &[ACTIVATE, GUARD, ACTIVATE_OUT],
        widths: &[WidthRule::One(&[1])],
        entries: EntryOrder::GuardSecond,
        branches: Some(Branches::From(3)),
        has_ordered_ports: true,
        ..PLAIN
    },
    KindRow {
        kind: KindName::Case,
        name: "$BrzCase",
        sign: "@",
        ports: &[PUSHED, CALLS_EACH],
        lengths: SETS,
        parameters: SPECIFICATION,
        detail: DetailRule::Text,
        branches: Some(Branches::From(2)),
        has_ordered_ports: true,
        ..PLAIN
    },
    KindRow {
        kind: KindName::CaseFetch,
        name: "$BrzCaseFetch",
        sign: "@",
        ports: &[REPLIED, INDEX, PULLS_EACH],
        lengths: SETS,
        widths: &[WidthRule::Equal(&[2, 0])],
        parameters: SPECIFICATION,
        detail: DetailRule::Text,
        branches: Some(Branches::From(3)),
        has_ordered_ports: true,
        ..PLAIN
    },
    KindRow {
        kind: KindName::Fetch,
        name: "$BrzFetch",
        sign: "→",
        ports: &[ACTIVATE, PULLS, PUSHES],
        widths: &[WidthRule::Equal(&[1, 2])],
        ..PLAIN
    },
    KindRow {
        kind: KindName::Variable,
        name: "$BrzVariable",
        sign: "x",
        ports: &[WRITTEN, READ_EACH],
        widths: EQUAL_BOTH,
        parameters: WHOLE_READS,
        callers: Callers::Written,
        is_variable: true,
        is_hub: true,
        ..PLAIN
    },
    KindRow {
        kind: KindName::Constant,
        name: "$BrzConstant",
        sign: "k",
        ports: &[REPLIED],
        parameters: CONSTANT,
        detail: DetailRule::Constant,
        ..PLAIN
    },
    KindRow {
        kind: KindName::UnaryFunc,
        name: "$BrzUnaryFunc",
        sign: "op",
        ports: &[REPLIED, PULLS],
        parameters: UNARY_FUNC,
        detail: DetailRule::Text,
        ..PLAIN
    },
    KindRow {
        kind: KindName::BinaryFunc,
        name: "$BrzBinaryFunc",
        sign: "op",
        ports: &[REPLIED, PULLS_A, PULLS_B],
        parameters: BINARY_FUNC,
        detail: DetailRule::Text,
        has_ordered_ports: true,
        ..PLAIN
    },
    KindRow {
        kind: KindName::BinaryFuncConstR,
        name: "$BrzBinaryFuncConstR",
        sign: "op",
        ports: &[REPLIED, PULLS],
        parameters: BINARY_FUNC_CONST,
        detail: DetailRule::Applied,
        ..PLAIN
    },
    KindRow {
        kind: KindName::Slice,
        name: "$BrzSlice",
        sign: "[ ]",
        ports: &[REPLIED, PULLS],
        widths: &[WidthRule::Within(0, 1)],
        parameters: LOW_BIT,
        detail: DetailRule::Low,
        ..PLAIN
    },
    KindRow {
        kind: KindName::Combine,
        name: "$BrzCombine",
        sign: "⟨⟩",
        ports: &[REPLIED, PULLS_LOW, PULLS_HIGH],
        widths: SUM_OF_BOTH,
        has_ordered_ports: true,
        ..PLAIN
    },
    KindRow {
        kind: KindName::CombineEqual,
        name: "$BrzCombineEqual",
        sign: "⟨⟩",
        ports: &[REPLIED, PULLS_EACH],
        widths: &[WidthRule::Equal(&[1]), WidthRule::Sum(0, &[1])],
        has_ordered_ports: true,
        ..PLAIN
    },
    KindRow {
        kind: KindName::Adapt,
        name: "$BrzAdapt",
        sign: "ad",
        ports: &[REPLIED, PULLS],
        parameters: SIGN,
        ..PLAIN
    },
    KindRow {
        kind: KindName::Split,
        name: "$BrzSplit",
        sign: "⟩⟨",
        ports: &[PUSHED, PUSHES_LOW, PUSHES_HIGH],
        widths: SUM_OF_BOTH,
        has_ordered_ports: true,
        ..PLAIN
    },
    KindRow {
        kind: KindName::Halt,
        name: "$BrzHalt",
        sign: "stop",
        ports: &[CALLED],
        ..PLAIN
    },
    KindRow {
        kind: KindName::HaltPush,
        name: "$BrzHaltPush",
        sign: "stop",
        ports: &[PUSHED],
        ..PLAIN
    },
    KindRow {
        kind: KindName::Continue,
        name: "$BrzContinue",
        sign: "run",
        ports: &[CALLED],
        ..PLAIN
    },
    KindRow {
        kind: KindName::ContinuePush,
        name: "$BrzContinuePush",
        sign: "run",
        ports: &[PUSHED],
        ..PLAIN
    },
    KindRow {
        kind: KindName::Call,
        name: "$BrzCall",
        sign: "|",
        ports: &[CALLED_EACH, CALLS],
        callers: Callers::Meet,
        is_hub: true,
        ..PLAIN
    },
    KindRow {
        kind: KindName::CallMux,
        name: "$BrzCallMux",
        sign: "|",
        ports: &[PUSHED_EACH, PUSHES],
        widths: EQUAL_BOTH,
        callers: Callers::Meet,
        is_hub: true,
        ..PLAIN
    },
    KindRow {
        kind: KindName::CallDemux,
        name: "$BrzCallDemux",
        sign: "|",
        ports: &[PULLED_EACH, PULLS_OUT],
        widths: EQUAL_BOTH,
        callers: Callers::Meet,
        is_hub: true,
        ..PLAIN
    },
    KindRow {
        kind: KindName::Passivator,
        name: "$BrzPassivator",
        sign: "•",
        ports: &[CALLED_EACH],
        ..PLAIN
    },
    KindRow {
        kind: KindName::PassivatorPush,
        name: "$BrzPassivatorPush",
        sign: "•",
        ports: &[REPLIED_EACH, PUSHED],
        widths: &[WidthRule::Equal(&[1, 0])],
        ..PLAIN
    },
    KindRow {
        kind: KindName::Synch,
        name: "$BrzSynch",
        sign: "•",
        ports: &[CALLED_EACH, CALLS],
        ..PLAIN
    },
    KindRow {
        kind: KindName::SynchPull,
        name: "$BrzSynchPull",
        sign: "•",
        ports: &[REPLIED_EACH, PULLS],
        widths: &[WidthRule::Equal(&[1, 0])],
        ..PLAIN
    },
    KindRow {
        kind: KindName::DecisionWait,
        name: "$BrzDecisionWait",
        sign: "DW",
        ports: &[ACTIVATE, CALLED_EACH, CALLS_EACH],
        lengths: EQUAL_ARRAYS,
        callers: Callers::OneIsEnough,
        branches: Some(Branches::BehindFirstArray(2)),
        has_ordered_ports: true,
        ..PLAIN
    },
    KindRow {
        kind: KindName::Arbiter,
        name: "$BrzArbiter",
        sign: "arb",
        ports: &[CALLED_A, CALLED_B, CALLS_A, CALLS_B],
        callers: Callers::Arbitrated,
        branches: Some(Branches::From(3)),
        ..PLAIN
    },
    KindRow {
        kind: KindName::FalseVariable,
        name: "$BrzFalseVariable",
        sign: "fx",
        ports: &[WRITTEN, SIGNAL, READ_EACH],
        widths: &[WidthRule::Equal(&[0, 2])],
        parameters: WHOLE_READS_LAST,
        callers: Callers::Written,
        is_variable: true,
        is_hub: true,
        ..PLAIN
    },
    KindRow {
        kind: KindName::Bar,
        name: "$BrzBar",
        sign: "[]",
        ports: &[GUARDED, ACTIVATE, PULLS_EACH, CALLS_EACH],
        lengths: EQUAL_ARRAYS,
        widths: &[WidthRule::One(&[0, 2])],
        entries: EntryOrder::GuardInFront,
        callers: Callers::Guarded,
        activation: 2,
        branches: Some(Branches::BehindFirstArray(3)),
        has_ordered_ports: true,
        ..PLAIN
    },
];

/// The rows of all kinds, in the order of their names.
pub fn kind_rows() -> &'static [KindRow]
    ensures { map seen_row result.now ≡ map rows all_names }
{
    &KINDS
}

/// What is known of the kind of a name.
#[inline(always)]
pub fn row_named(name: KindName) -> &'static KindRow
    ensures { seen_row result.now ≡ rows name }
{
    &KINDS[name as usize]
}

/// What is known of a kind.
#[inline(always)]
pub fn row_of(kind: &Kind) -> &'static KindRow
    ensures { seen_row result.now ≡ rows (kind_name kind.now) }
{
    row_named(KindName::of(kind))
}

impl KindRow {
    /// Its name without the `$Brz` that netlists put in front.
    pub fn word(&self) -> &'static [u8]
        ensures { result.now ≡ word_of (seen_row self.now) }
    {
        self.name.as_bytes().get(4..).unwrap_or(&[])
    }
}
