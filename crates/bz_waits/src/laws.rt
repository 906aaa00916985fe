//! The law of what is stuck. This function does nothing: what it ensures is proved.

ghost use Rattle.std.specs.Prelude.{ℕ, Bool, List};
ghost use Rattle.std.specs.List.{AllByRecursion};
ghost use Rattle.bz_model.specs.declared.event.Entry.{Entry};
ghost use Rattle.bz_model.specs.Nets.{Wiring, State};
ghost use Rattle.bz_model.specs.Runs.{Run};
ghost use Rattle.bz_flat.specs.Wires.{WellWired};
ghost use Rattle.bz_waits.specs.Stuck.{AreStuck, Spares};

/// What is stuck stays so: no run moves one of the set, and the set is stuck where the run leads to.
pub fn what_is_stuck_stays()
    ensures { (w : Wiring) (member : ℕ → Bool) (s last : State) (es : List Entry)
        → WellWired w → AreStuck w s member → Run w s es last → AllByRecursion (Spares member) es × AreStuck w last member }
{}
