//! Laws of what a pool writes. This function does nothing: what it ensures is proved.

ghost use Rattle.std.specs.Prelude.{◌≤◌, ℕ, List, Option, length};
ghost use Rattle.std.specs.declared.alloc.Global.{Global};
ghost use Rattle.std.specs.declared.vec.Vec.{Vec};
ghost use Rattle.std.specs.Io.KnownBytes.{Appends};
ghost use Rattle.bz_cli.specs.Pooling.{WritesPlay};
ghost use Rattle.bz_locked.specs.Terms.{Terms};
ghost use Rattle.bz_model.specs.declared.event.HostCmd.{HostCmd};
ghost use Rattle.bz_model.specs.Limits.{max_entries};
ghost use Rattle.bz_pool.specs.declared.playing.End.{End};
ghost use Rattle.bz_trace.specs.Verdicts.{IsRunText};

/// The trace of a pool is the text of a run: so `check` says `Run` of it, memory aside.
pub fn pools_are_accepted()
    ensures { (t : Terms) (lists : List (Vec HostCmd Global)) (workers : ℕ) (ends : List End) (old new : Option (List ℕ))
        → (play : WritesPlay t lists workers ends (Appends old new)) → length lists ≤ 16 → workers ≤ 8 → t.limit ≤ max_entries
        → IsRunText t.wiring play.trace }
{}
