//! What components of every kind do at their ports. This function does nothing: what it ensures is proved.

ghost use Rattle.std.specs.Prelude.{◌≡◌, ℕ, List, ◌∷◌, not};
ghost use Rattle.bz_model.specs.declared.channel.Chan.{Chan};
ghost use Rattle.bz_model.specs.declared.kind.Kind.{Kind};
ghost use Rattle.bz_model.specs.Heads.{Proc, opens};
ghost use Rattle.bz_model.specs.Rows.{MeetsRow, is_passive};
ghost use Rattle.bz_net.specs.Sides.{answers};
ghost use Rattle.bz_laws.specs.Deeds.{Deed, Made, is_open, start};

/// What a component of any kind makes at a port are handshakes, one after another: it takes and replies at a passive port, asks
/// and gets at an active one, and takes or asks where the port is closed, replies or gets where it is open.
pub fn ports_make_handshakes()
    ensures turns { (kind : Kind) (sizes : List ℕ) (chans : List Chan) (d : Deed) (past : List Deed) (here : Proc)
        → MeetsRow kind sizes chans → Made (start kind sizes chans) (d ∷ past) here → opens d.move ≡ not (is_open d.port past) }
    ensures sides { (kind : Kind) (sizes : List ℕ) (chans : List Chan) (d : Deed) (past : List Deed) (here : Proc)
        → Made (start kind sizes chans) (d ∷ past) here → answers d.move ≡ is_passive kind sizes d.port }
{}
