//! Nets as parts of nets: what is found of a part alone holds of it in its place. These functions do nothing: what they ensure
//! is proved.

ghost use Rattle.std.specs.Prelude.{◌≤◌, ℕ, List, ◌∷◌, length};
ghost use Rattle.std.specs.List.{AllByRecursion};
ghost use Rattle.bz_model.specs.declared.event.Entry.{Entry};
ghost use Rattle.bz_model.specs.Entries.{HasWho};
ghost use Rattle.bz_model.specs.Limits.{max_entries};
ghost use Rattle.bz_model.specs.Nets.{Wiring, State, opening};
ghost use Rattle.bz_model.specs.Runs.{Run};
ghost use Rattle.bz_model.specs.Traces.{IsTrace};
ghost use Rattle.bz_breeze_records.specs.declared.part.Part.{Part};
ghost use Rattle.bz_flat.specs.Wires.{WellWired};
ghost use Rattle.bz_elab.specs.Paths.{Path, net};
ghost use Rattle.bz_trace.specs.Verdicts.{IsRunText};
ghost use Rattle.bz_run_laws.specs.Embeddings.{Embedding, IsPartOf, entries_in, state_in};
ghost use Rattle.bz_run_laws.specs.Copies.{IsCopy, copy_at};

/// A part alone is the part in its place: of each run of the whole, the entries in the part are a run of the part, where a host
/// plays what surrounds it, and the part within the state that the run leads to is the state that they lead to.
pub fn parts_run_in_place()
    ensures { (part whole : Wiring) (e : Embedding) (es : List Entry) (last : State) → WellWired part → WellWired whole
        → IsPartOf part whole e → Run whole (opening whole) es last → Run part (opening part) (entries_in e es) (state_in e last) }
{}

/// So `check` accepts the trace of a part in its place, as one of the part alone.
pub fn traces_of_parts_are_accepted()
    ensures { (part whole : Wiring) (e : Embedding) (es : List Entry) (last : State) (text : List ℕ) → WellWired part
        → WellWired whole → IsPartOf part whole e → Run whole (opening whole) es last → AllByRecursion HasWho es
        → length es ≤ max_entries → IsTrace part (entries_in e es) text → IsRunText part text }
{}

/// The net of a part is a part of each net in which it has a copy, and what its copy does in a run of that net is a run of the
/// part alone.
pub fn copies_are_parts()
    ensures { (parts : List Part) (name : List ℕ) (top part : Part) (i : ℕ) (up : Path) → IsCopy parts name top part i up
        → (n : ℕ) × IsPartOf (net parts part) (net parts top) (copy_at parts top (i ∷ up) part n)
        × ((es : List Entry) (last : State) → Run (net parts top) (opening (net parts top)) es last
        → Run (net parts part) (opening (net parts part)) (entries_in (copy_at parts top (i ∷ up) part n) es)
        (state_in (copy_at parts top (i ∷ up) part n) last)) }
{}
