//! What is known of the counts of a run.

ghost use Rattle.std.specs.Prelude.{◌≡◌, ◌+◌, ◌++◌, ℕ, Bool, List, [], min};
ghost use Rattle.std.specs.List.{count_by};
ghost use Rattle.bz_model.specs.declared.event.Entry.{Entry};
ghost use Rattle.bz_model.specs.Nets.{IsPort, State, Wiring, chan_at, opening, passive_at};
ghost use Rattle.bz_model.specs.Runs.{Run};
ghost use Rattle.bz_flat.specs.Wires.{WellWired};
ghost use Rattle.bz_trace.specs.Verdicts.{IsRunText};
ghost use Rattle.bz_trace.specs.Watching.{ShowsTrace};
ghost use Rattle.bz_cover.specs.Counting.{AreCounted};
ghost use Rattle.bz_cover.specs.declared.counted.Counted.{Counted};
ghost use Rattle.bz_cover.specs.Counts.{CountsOn, Tallies, counted, is_request_at, is_request_of, most_counted};

/// The requests at an end of a channel are those of the component and the port that stand there.
pub fn ports_count_their_own()
    ensures { (w : Wiring) (entries : List Entry) (last : State) (c p : ℕ) → WellWired w → Run w (opening w) entries last
        → IsPort w.sites c p → count_by (is_request_at (chan_at w.sites c p) (passive_at w.sites c p)) entries
        ≡ count_by (is_request_of c p) entries }
{}

/// What is counted of several traces is the sum of what is counted of each.
pub fn counts_add_up()
    ensures { (p : Entry → Bool) (first next : List Entry) →
        counted p (first ++ next) ≡ min (counted p first + counted p next) most_counted }
{}

/// Counts of one trace behind those of another are the counts of both.
pub fn traces_add_up()
    ensures { (none first both : Tallies) (one other : List Entry) → CountsOn none one first → CountsOn first other both
        → CountsOn none (one ++ other) both }
{}

/// What `Counted` holds behind the trace of a run that was judged are the counts of that run's entries.
pub fn runs_are_counted()
    ensures { (w : Wiring) (text : List ℕ) (now : Counted) → WellWired w
        → ShowsTrace (λ v entries c. AreCounted v entries c.coverage) w [] text now
        → (run : IsRunText w text) → AreCounted w run.entries now.coverage }
{}
