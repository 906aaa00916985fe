//! Laws of runs. These functions do nothing: what they ensure is proved.

ghost use Rattle.std.specs.Prelude.{ℕ, List};
ghost use Rattle.std.specs.List.{AllByRecursion};
ghost use Rattle.bz_model.specs.declared.event.Entry.{Entry};
ghost use Rattle.bz_model.specs.declared.event.Cmd.{Cmd};
ghost use Rattle.bz_model.specs.declared.event.NetError.{NetError};
ghost use Rattle.bz_model.specs.Plays.{PlaysAll, Stops};
ghost use Rattle.bz_model.specs.Entries.{HasLine, HasWho};
ghost use Rattle.bz_model.specs.Nets.{Wiring, State, chan_in, opening, outside, phase_at};
ghost use Rattle.bz_model.specs.Runs.{Run};
ghost use Rattle.bz_model.specs.Widths.{FitsChan};
ghost use Rattle.bz_flat.specs.Wires.{WellWired};

/// In each state that a run of a net leads to, a channel holds a value exactly where one is carried, and one that fits.
pub fn states_fit()
    ensures { (w : Wiring) (es : List Entry) (last : State) → WellWired w → Run w (opening w) es last → (k : ℕ) → FitsChan (chan_in w.chans k) (phase_at last k) }
{}

/// Each entry of a run of a net has a line, where those who made the entries are in range.
pub fn run_has_lines()
    ensures { (w : Wiring) (es : List Entry) (last : State) → WellWired w → Run w (opening w) es last → AllByRecursion HasWho es → AllByRecursion (HasLine (outside w)) es }
{}

/// So has each entry of what words play, to their end or up to where they stop.
pub fn plays_have_lines()
    ensures all { (w : Wiring) (cmds : List Cmd) (es : List Entry) → WellWired w → PlaysAll w cmds es → AllByRecursion (HasLine (outside w)) es }
    ensures stops { (w : Wiring) (limit : ℕ) (cmds : List Cmd) (at : ℕ) (e : NetError) (es : List Entry) → WellWired w → Stops w limit cmds at e es → AllByRecursion (HasLine (outside w)) es }
{}
