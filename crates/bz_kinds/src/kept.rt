//! A plan as a component keeps it: what many components have alike is told by its name.

ghost use Rattle.std.specs.Prelude.{◌≡◌, IfOk};
ghost use Rattle.bz_kinds.specs.declared.row.Row.{Row};
ghost use Rattle.bz_kinds.specs.declared.row.Plan.TheVariants.{InTurn, Together};
ghost use Rattle.bz_kinds.specs.Kept.{meet_of, mix_of, plan_of, row_of};

use crate::row::{Meet, Mix, Row, Script};
use crate::shape::{
    ARBITER, CALL_MEETING, CALLS, CHOICE, DEMUX, FETCHES, MEETING, MUX, PULL_MEETING, PUSH_MEETING,
    PUSHES,
};
use bz_model::Spans;
use std::alloc::{AllocError, Global};

/// A row that kinds have in common, by its name.
#[derive(Clone, Copy, PartialEq, Eq)]
pub enum KeptRow {
    Calls,
    Pushes,
    Fetches,
}

/// A choice by its name.
#[derive(Clone, Copy, PartialEq, Eq)]
pub enum KeptMix {
    Choice,
    Mux,
    Demux,
    Arbiter,
}

/// A meeting by its name.
#[derive(Clone, Copy, PartialEq, Eq)]
pub enum KeptMeet {
    Meeting,
    PushMeeting,
    CallMeeting,
    PullMeeting,
}

/// A plan as a component keeps it: small, since a net has many. A row in turn or at once that kinds have in common, and a Loop,
/// are told by the variant alone; a row that no other kind has stands in a block of its own.
#[derive(Drop)]
pub enum KeptPlan {
    CallsInTurn,
    PushesInTurn,
    FetchesInTurn,
    OwnInTurn(Box<Row>),
    CallsTogether,
    PushesTogether,
    OwnTogether(Box<Row>),
    Once(KeptRow),
    Cells,
    Signalled,
    Select(Spans),
    Indexed(Spans),
    Loop,
    OneByOne(Script),
    Choice(KeptMix),
    Meeting(KeptMeet),
    Decision,
    Bar,
}

impl KeptRow {
    pub fn get(&self) -> &Row
        ensures { result.now ≡ row_of self.now }
    {
        match self {
            KeptRow::Calls => &CALLS,
            KeptRow::Pushes => &PUSHES,
            KeptRow::Fetches => &FETCHES,
        }
    }
}

impl KeptMix {
    pub fn get(&self) -> &Mix
        ensures { result.now ≡ mix_of self.now }
    {
        match self {
            KeptMix::Choice => &CHOICE,
            KeptMix::Mux => &MUX,
            KeptMix::Demux => &DEMUX,
            KeptMix::Arbiter => &ARBITER,
        }
    }
}

impl KeptMeet {
    pub fn get(&self) -> &Meet
        ensures { result.now ≡ meet_of self.now }
    {
        match self {
            KeptMeet::Meeting => &MEETING,
            KeptMeet::PushMeeting => &PUSH_MEETING,
            KeptMeet::CallMeeting => &CALL_MEETING,
            KeptMeet::PullMeeting => &PULL_MEETING,
        }
    }
}

impl KeptPlan {
    /// The row of a plan that has one.
    #[inline]
    pub fn row(&self) -> &Row
        ensures in_turn { (row : Row) → plan_of self.now ≡ InTurn row → result.now ≡ row }
        ensures together { (row : Row) → plan_of self.now ≡ Together row → result.now ≡ row }
    {
        match self {
            KeptPlan::CallsInTurn | KeptPlan::CallsTogether => &CALLS,
            KeptPlan::PushesInTurn | KeptPlan::PushesTogether => &PUSHES,
            KeptPlan::FetchesInTurn => &FETCHES,
            KeptPlan::OwnInTurn(row) | KeptPlan::OwnTogether(row) => row,
            _ => &CALLS,
        }
    }

    /// The same plan.
    pub fn dup(&self, alloc: Global) -> Result<KeptPlan, AllocError>
        ensures { IfOk result (λ p. plan_of p ≡ plan_of self.now) }
    {
        match self {
            KeptPlan::CallsInTurn => Ok(KeptPlan::CallsInTurn),
            KeptPlan::PushesInTurn => Ok(KeptPlan::PushesInTurn),
            KeptPlan::FetchesInTurn => Ok(KeptPlan::FetchesInTurn),
            KeptPlan::OwnInTurn(row) => {
                let own = Box::new(alloc, **row)?;
                Ok(KeptPlan::OwnInTurn(own))
            }
            KeptPlan::CallsTogether => Ok(KeptPlan::CallsTogether),
            KeptPlan::PushesTogether => Ok(KeptPlan::PushesTogether),
            KeptPlan::OwnTogether(row) => {
                let own = Box::new(alloc, **row)?;
                Ok(KeptPlan::OwnTogether(own))
            }
            KeptPlan::Once(row) => Ok(KeptPlan::Once(*row)),
            KeptPlan::Cells => Ok(KeptPlan::Cells),
            KeptPlan::Signalled => Ok(KeptPlan::Signalled),
            KeptPlan::Select(spans) => {
                let spans = spans.dup()?;
                Ok(KeptPlan::Select(spans))
            }
            KeptPlan::Indexed(spans) => {
                let spans = spans.dup()?;
                Ok(KeptPlan::Indexed(spans))
            }
            KeptPlan::Loop => Ok(KeptPlan::Loop),
            KeptPlan::OneByOne(script) => Ok(KeptPlan::OneByOne(*script)),
            KeptPlan::Choice(mix) => Ok(KeptPlan::Choice(*mix)),
            KeptPlan::Meeting(meet) => Ok(KeptPlan::Meeting(*meet)),
            KeptPlan::Decision => Ok(KeptPlan::Decision),
            KeptPlan::Bar => Ok(KeptPlan::Bar),
        }
    }
}
