//! Traces of runs of any net that is well wired. These functions do nothing: what they ensure is proved.

ghost use Rattle.std.specs.Prelude.{◌≡◌, ◌≤◌, ℕ, List, length};
ghost use Rattle.std.specs.List.{AllByRecursion};
ghost use Rattle.bz_model.specs.declared.event.Entry.{Entry};
ghost use Rattle.bz_model.specs.Entries.{HasWho};
ghost use Rattle.bz_model.specs.Limits.{max_entries};
ghost use Rattle.bz_model.specs.Nets.{Wiring, State, opening};
ghost use Rattle.bz_model.specs.Runs.{Run};
ghost use Rattle.bz_model.specs.Traces.{IsTrace, trace_text_1};
ghost use Rattle.bz_flat.specs.Wires.{WellWired};
ghost use Rattle.bz_net.specs.Unbroken.{UnbrokenRun};
ghost use Rattle.bz_trace_text.specs.Texts.{lines};
ghost use Rattle.bz_trace.specs.Verdicts.{IsRunText};

/// The lines of entries tell one run, ports and all: of two runs with the same lines the entries are the same, and the states
/// that they lead to.
pub fn lines_tell_one_run()
    ensures { (w : Wiring) (es fs : List Entry) (a b : State) → WellWired w → Run w (opening w) es a → Run w (opening w) fs b
        → AllByRecursion HasWho es → AllByRecursion HasWho fs → lines w.ports es ≡ lines w.ports fs → (es ≡ fs) × (a ≡ b) }
{}

/// A text that `check` accepts is the trace of one run.
pub fn traces_tell_one_run()
    ensures { (w : Wiring) (text : List ℕ) (one other : IsRunText w text) → WellWired w
        → (one.entries ≡ other.entries) × (one.last ≡ other.last) }
{}

/// Through no state of the run whose trace `check` accepts is a channel broken.
pub fn traces_break_no_channel()
    ensures { (w : Wiring) (text : List ℕ) (run : IsRunText w text) → WellWired w
        → UnbrokenRun w (opening w) run.entries run.last }
{}

/// The trace of a run of hosts and workers in range is accepted, in either version.
pub fn traces_of_runs_are_accepted()
    ensures second { (w : Wiring) (es : List Entry) (last : State) (text : List ℕ)
        → Run w (opening w) es last → AllByRecursion HasWho es → length es ≤ max_entries → IsTrace w es text → IsRunText w text }
    ensures first { (w : Wiring) (es : List Entry) (last : State) → Run w (opening w) es last → AllByRecursion HasWho es
        → length es ≤ max_entries → IsRunText w (trace_text_1 w.ports es) }
{}
