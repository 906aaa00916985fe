//! Runs of any net that is well wired. These functions do nothing: what they ensure is proved.

ghost use Rattle.std.specs.Prelude.{◌≡◌, ◌<◌, ◌≤◌, ℕ, List, length};
ghost use Rattle.bz_model.specs.declared.event.Entry.{Entry};
ghost use Rattle.bz_model.specs.Heads.{HasOneHead};
ghost use Rattle.bz_model.specs.Nets.{Wiring, State, opening, proc_at};
ghost use Rattle.bz_model.specs.Runs.{Run};
ghost use Rattle.bz_flat.specs.Wires.{WellWired};
ghost use Rattle.bz_net.specs.Unbroken.{IsUnbroken, UnbrokenRun};

/// No channel is ever requested twice before its acknowledgement, nor acknowledged twice: no run leads to a state in which
/// a channel is broken, nor through one.
pub fn runs_break_no_channel()
    ensures last { (w : Wiring) (es : List Entry) (last : State) → WellWired w → Run w (opening w) es last → IsUnbroken last }
    ensures ever { (w : Wiring) (es : List Entry) (last : State) → WellWired w → Run w (opening w) es last
        → UnbrokenRun w (opening w) es last }
{}

/// In each state that a run leads to, a component can make one move at most at a port.
pub fn ports_have_one_move()
    ensures { (w : Wiring) (es : List Entry) (last : State) (c : ℕ) → WellWired w → Run w (opening w) es last
        → 0 < c → c ≤ length w.sites → HasOneHead (proc_at last c).todo }
{}

/// A journal leads from the opening to one state.
pub fn journals_lead_to_one_state()
    ensures { (w : Wiring) (es : List Entry) (a b : State) → WellWired w
        → Run w (opening w) es a → Run w (opening w) es b → a ≡ b }
{}
