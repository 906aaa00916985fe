use crate::standing::Turn;
use std::marker::Model;

/// The turns of all sessions, in order. No value of it is made.
#[derive(Drop)]
pub struct Turns {
    pub turns: Vec<Turn>,
}

impl Model for Turns {
    ghost use Rattle.std.specs.Prelude.{List};
    ghost use Rattle.bz_past.specs.declared.standing.Turn.{Turn};

    ghost Value = { List Turn };

    ghost view = { λ t. t.turns.items };
}
