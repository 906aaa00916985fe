//! In which order groups of lines pass.

ghost use Rattle.std.specs.Prelude.{ℕ, List};
ghost use Rattle.bz_model.specs.declared.event.Entry.{Entry};
ghost use Rattle.bz_bench.specs.Groups.{AreInTurn, IsPlay};
ghost use Rattle.bz_bench.specs.declared.stream.Stream.{Stream};

/// In a play nothing of a group of lines begins before all that is due in the groups above it has passed. This function does
/// nothing: what it ensures is proved.
pub fn groups_pass_in_turn()
    ensures { (streams : List Stream) (entries : List Entry) (groups : ℕ → ℕ)
        → IsPlay streams entries groups → AreInTurn streams entries }
{}
