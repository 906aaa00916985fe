//! The entries of components.

ghost use Rattle.std.specs.Prelude.{◌≡◌, [], ◌∷◌};

use crate::held::HeldSlots;
use crate::part::Slot;
use std::marker::Model;

/// Entries in a row, which take no memory of their own where there is one.
#[derive(Drop)]
pub struct Entries {
    held: HeldSlots,
}

impl Model for Entries {
    ghost use Rattle.bz_breeze_records.specs.Held.{Slots, slots_held};

    ghost Value = { Slots };

    ghost view = { λ entries. record { items = slots_held entries.held } };
}

impl Entries {
    /// A single entry.
    #[inline(always)]
    pub fn one(slot: Slot) -> Entries
        ensures { result.items ≡ slot ∷ [] }
    {
        Entries {
            held: HeldSlots::One([slot]),
        }
    }

    /// These entries.
    #[inline(always)]
    pub fn row(slots: Vec<Slot>) -> Entries
        ensures { result.items ≡ slots.items }
    {
        Entries {
            held: HeldSlots::Row(slots),
        }
    }

    /// The entries, in order.
    #[inline(always)]
    pub fn as_slice(&self) -> &[Slot]
        ensures value { result.now ≡ self.now.items }
    {
        match &self.held {
            HeldSlots::One(slots) => slots.as_slice(),
            HeldSlots::Row(slots) => slots.as_slice(),
        }
    }
}

impl PartialEq for Entries {
    ghost use Rattle.std.specs.Cmp.{on_per};
    ghost use Rattle.std.specs.Cmp.Lexicographic.{pointwise, lists_per};
    ghost use Rattle.bz_breeze_records.specs.contracts.part.SlotPartialEq.TheImpl.Laws.{laws-law};

    ghost eq = { λ x y. pointwise ⟦<Slot as PartialEq>⟧.eq x.items y.items };

    ghost laws = { on_per (λ x. x.items) (lists_per laws-law) };

    fn eq(&self, other: &Entries) -> bool {
        self.as_slice() == other.as_slice()
    }
}

impl Eq for Entries {
    ghost use Rattle.std.specs.Cmp.{on_equiv};
    ghost use Rattle.std.specs.Cmp.Lexicographic.{lists_equiv};
    ghost use Rattle.bz_breeze_records.specs.contracts.part.SlotEq.TheImpl.Laws.{laws-law};

    ghost laws = { on_equiv (λ x. x.items) (lists_equiv laws-law) };
}
