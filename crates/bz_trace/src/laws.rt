//! Laws of what is checked. This function does nothing: what it ensures is proved.

ghost use Rattle.std.specs.Prelude.{◌≤◌, ℕ, List, length};
ghost use Rattle.bz_model.specs.declared.event.Cmd.{Cmd};
ghost use Rattle.bz_model.specs.declared.event.Entry.{Entry};
ghost use Rattle.bz_model.specs.declared.event.NetError.{NetError};
ghost use Rattle.bz_model.specs.Nets.{Wiring};
ghost use Rattle.bz_model.specs.Plays.{PlaysAll, Stops};
ghost use Rattle.bz_model.specs.Traces.{IsTrace, trace_text_1};
ghost use Rattle.bz_model.specs.Limits.{max_entries};
ghost use Rattle.bz_trace.specs.Verdicts.{IsRunText};

/// The trace of what words play on a net, to their end or up to where they stop, is the text of a run: so `check` says
/// `Run` of it, memory aside. The same goes for version 1 of it.
pub fn plays_are_accepted()
    ensures all { (w : Wiring) (cmds : List Cmd) (es : List Entry) (text : List ℕ) → PlaysAll w cmds es
        → length es ≤ max_entries → IsTrace w es text → IsRunText w text }
    ensures stops { (w : Wiring) (limit : ℕ) (cmds : List Cmd) (at : ℕ) (e : NetError) (es : List Entry) (text : List ℕ)
        → Stops w limit cmds at e es → length es ≤ max_entries → IsTrace w es text → IsRunText w text }
    ensures first_version { (w : Wiring) (cmds : List Cmd) (es : List Entry) → PlaysAll w cmds es
        → length es ≤ max_entries → IsRunText w (trace_text_1 w.ports es) }
{}
