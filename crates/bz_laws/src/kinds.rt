//! What components of a kind do, whatever stands around them. These functions do nothing: what they ensure is proved.

ghost use Rattle.std.specs.Prelude.{◌≡◌, ◌<◌, ℕ, List, ◌∷◌, Some, false, true};
ghost use Rattle.bz_model.specs.declared.channel.Chan.{Chan};
ghost use Rattle.bz_model.specs.declared.channel.Move.TheVariants.{Ask, Reply, Take};
ghost use Rattle.bz_model.specs.declared.kind.Kind.TheVariants.{Arbiter, Call, Concur, Fetch, Sequence, Variable};
ghost use Rattle.bz_model.specs.Heads.{Proc};
ghost use Rattle.bz_model.specs.Processes.{member, size};
ghost use Rattle.bz_laws.specs.Deeds.{Deed, IsTurnOf, Made, came_at, has_ended, is_open, start};

/// A Variable replies what was written last, and 0 where nothing was.
pub fn variable_replies_what_was_written()
    ensures { (sizes : List ℕ) (chans : List Chan) (d : Deed) (past : List Deed) (here : Proc) (i : ℕ)
        → Made (start Variable sizes chans) (d ∷ past) here → d.port ≡ member i → d.move ≡ Reply → d.value ≡ Some (came_at 1 past) }
{}

/// A Sequence asks its first output once it was taken, and each other one once the one before it has ended.
pub fn sequence_asks_in_order()
    ensures { (sizes : List ℕ) (chans : List Chan) (d : Deed) (past : List Deed) (here : Proc) (i : ℕ)
        → Made (start Sequence sizes chans) (d ∷ past) here → d.port ≡ member i → d.move ≡ Ask → IsTurnOf i past }
{}

/// A Fetch pushes the value that it pulled last.
pub fn fetch_pushes_what_it_pulled()
    ensures { (sizes : List ℕ) (chans : List Chan) (d : Deed) (past : List Deed) (here : Proc)
        → Made (start Fetch sizes chans) (d ∷ past) here → d.port ≡ 3 → d.move ≡ Ask → d.value ≡ Some (came_at 2 past) }
{}

/// A Concur replies only once the call of each output has ended since it was taken.
pub fn concur_waits_for_all()
    ensures { (sizes : List ℕ) (chans : List Chan) (d : Deed) (past : List Deed) (here : Proc) (i : ℕ)
        → Made (start Concur sizes chans) (d ∷ past) here → d.port ≡ 1 → d.move ≡ Reply → i < size sizes → has_ended (member i) past ≡ true }
{}

/// A Call serves one at a time: where it takes a request no port of it is open.
pub fn call_serves_one_at_a_time()
    ensures { (sizes : List ℕ) (chans : List Chan) (d : Deed) (past : List Deed) (here : Proc) (p : ℕ)
        → Made (start Call sizes chans) (d ∷ past) here → d.move ≡ Take → is_open p past ≡ false }
{}

/// An Arbiter calls one side at a time: where it asks at an output no output of it is open.
pub fn arbiter_calls_one_side_at_a_time()
    ensures { (sizes : List ℕ) (chans : List Chan) (d : Deed) (past : List Deed) (here : Proc) (p : ℕ)
        → Made (start Arbiter sizes chans) (d ∷ past) here → d.move ≡ Ask → 2 < p → is_open p past ≡ false }
{}
