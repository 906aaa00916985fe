//! The values and the channels of a component: few, which lie in it, or a list.

ghost use Rattle.std.specs.Prelude.{◌≡◌, ◌≢◌, ◌↔◌, IfOk, IfSome, IsTrue, Some, replicate, slice_index, slice_set};
ghost use Rattle.std.specs.List.{All};
ghost use Rattle.bz_model.specs.declared.expr.Expr.TheVariants.{Nothing};
ghost use Rattle.bz_model.specs.Terms.{stored, value_of, IsNarrow};
ghost use Rattle.bz_kinds.specs.KeptLists.{chan_of, chans_of, slots_of};
ghost use Rattle.bz_kinds.specs.Riding.{held};

use bz_model::{Chan, ChanKind, Expr, Value};
use std::alloc::{AllocError, Global};

/// The values that a component keeps: two, as most do, or another number of them.
#[derive(Drop)]
pub enum KeptSlots {
    Two([Value; 2]),
    List(Vec<Value>),
}

/// A channel in two bytes. A width that needs more has none.
#[derive(Clone, Copy)]
pub struct KeptChan {
    kind: ChanKind,
    width: u8,
}

/// The channels at a component's ports, in the order of these: few, as most have, so many that are alike, or a list.
#[derive(Drop)]
pub enum KeptChans {
    One(KeptChan),
    Two(KeptChan, KeptChan),
    Three(KeptChan, KeptChan, KeptChan),
    Alike(KeptChan, u32),
    List(Box<Vec<Chan>>),
}

impl KeptSlots {
    /// So many zeros.
    pub fn new(alloc: Global, count: u32) -> Result<KeptSlots, AllocError>
        ensures { IfOk result (λ s. slots_of s ≡ replicate count 0) }
    {
        if count == 2 {
            return Ok(KeptSlots::Two([0; 2]));
        }
        let list = vec![in alloc; 0; count as usize]?;
        Ok(KeptSlots::List(list))
    }

    #[inline(always)]
    pub fn get(&self) -> &[Value]
        ensures { result.now ≡ slots_of self.now }
    {
        match self {
            KeptSlots::Two(two) => two,
            KeptSlots::List(list) => list,
        }
    }

    /// The value in a slot, 0 where there is no such slot.
    #[inline(always)]
    pub fn kept_at(&self, slot: u32) -> Value
        ensures { result ≡ slice_index (slots_of self.now) slot }
    {
        match self.get().get(slot as usize) {
            Some(value) => *value,
            None => 0,
        }
    }

    /// Puts a value that came in into its slot.
    #[inline]
    pub fn keep(&mut self, slot: u32, value: Option<Value>)
        ensures { slots_of self.new ≡ stored slot value (slots_of self.old) }
    {
        if let Some(value) = value {
            self.put(slot, value);
        }
    }

    /// The same of a value that is at hand, if one came in.
    #[inline]
    pub fn keep_riding(&mut self, slot: u32, rides: bool, value: Value)
        ensures { slots_of self.new ≡ stored slot (held rides value) (slots_of self.old) }
    {
        if rides {
            self.put(slot, value);
        }
    }

    /// What an expression is worth over these.
    #[inline]
    pub fn worth(&self, gives: &Expr) -> Option<Value>
        requires { IsNarrow gives.now }
        ensures { result ≡ value_of gives.now (slots_of self.now) }
    {
        match gives {
            Expr::Nothing => None,
            _ => self.worth_some(gives),
        }
    }

    // The same of what is worth something, which is most often the first of two values.
    #[inline]
    fn worth_some(&self, gives: &Expr) -> Option<Value>
        requires narrow { IsNarrow gives.now }
        requires some { gives.now ≢ Nothing }
        ensures { result ≡ value_of gives.now (slots_of self.now) }
    {
        match (gives, self) {
            (Expr::Slot(0), KeptSlots::Two(two)) => Some(two[0]),
            _ => Some(self.worth_far(gives)),
        }
    }

    // The value alone: an `Option` that comes from a call would be written to memory on every path.
    #[cold]
    #[inline(never)]
    fn worth_far(&self, gives: &Expr) -> Value
        requires narrow { IsNarrow gives.now }
        requires some { gives.now ≢ Nothing }
        ensures { value_of gives.now (slots_of self.now) ≡ Some result }
    {
        gives.value(self.get()).unwrap()
    }

    /// Puts a value into a slot, where there is such a slot.
    #[inline]
    pub fn put(&mut self, slot: u32, value: Value)
        ensures { slots_of self.new ≡ slice_set (slots_of self.old) slot value }
    {
        match self {
            KeptSlots::Two(two) => put_in(two, slot, value),
            KeptSlots::List(list) => put_in_list(list, slot, value),
        }
    }

    /// Whether they are the same values.
    pub fn is_same(&self, other: &KeptSlots) -> bool
        ensures { IsTrue result → slots_of self.now ≡ slots_of other.now }
    {
        self.get() == other.get()
    }

    /// The same values.
    pub fn dup(&self, alloc: Global) -> Result<KeptSlots, AllocError>
        ensures { IfOk result (λ s. slots_of s ≡ slots_of self.now) }
    {
        match self {
            KeptSlots::Two(two) => Ok(KeptSlots::Two(*two)),
            KeptSlots::List(list) => {
                let list = list.to_vec(alloc)?;
                Ok(KeptSlots::List(list))
            }
        }
    }
}

// The same where there may be more than two.
#[cold]
#[inline(never)]
fn put_in_list(slots: &mut [Value], slot: u32, value: Value)
    ensures { slots.new ≡ slice_set slots.old slot value }
{
    put_in(slots, slot, value);
}

fn put_in(slots: &mut [Value], slot: u32, value: Value)
    ensures { slots.new ≡ slice_set slots.old slot value }
{
    if (slot as usize) < slots.len() {
        slots[slot as usize] = value;
    }
}

impl KeptChan {
    fn of(chan: Chan) -> Option<KeptChan>
        ensures { IfSome result (λ k. chan_of k ≡ chan) }
    {
        if chan.width > u8::MAX as u32 {
            return None;
        }
        Some(KeptChan {
            kind: chan.kind,
            width: chan.width as u8,
        })
    }
}

// Channels of which there are few, or which are alike.
fn few(chans: &[Chan]) -> Option<KeptChans>
    ensures { IfSome result (λ k. chans_of k ≡ chans.now) }
{
    match chans {
        [one] => Some(KeptChans::One(KeptChan::of(*one)?)),
        [first, second] => Some(KeptChans::Two(KeptChan::of(*first)?, KeptChan::of(*second)?)),
        [first, second, third] => Some(KeptChans::Three(
            KeptChan::of(*first)?,
            KeptChan::of(*second)?,
            KeptChan::of(*third)?,
        )),
        _ => alike(chans),
    }
}

// Channels that are all as the first one.
#[tactic(auto, using(crate::proofs::Alike::all_alike))]
fn alike(chans: &[Chan]) -> Option<KeptChans>
    ensures { IfSome result (λ k. chans_of k ≡ chans.now) }
{
    let first = *chans.first()?;
    let each = KeptChan::of(first)?;
    if chans.len() > u32::MAX as usize {
        return None;
    }
    if !are_all(chans, first) {
        return None;
    }
    Some(KeptChans::Alike(each, chans.len() as u32))
}

// Whether each of the channels is as this one.
fn are_all(chans: &[Chan], one: Chan) -> bool
    ensures { IsTrue result ↔ All (λ c. (c.kind ≡ one.kind) × (c.width ≡ one.width)) chans.now }
{
    chans
        .iter()
        .all(|chan| chan.kind == one.kind && chan.width == one.width)
}

impl KeptChans {
    /// These channels.
    pub fn of(alloc: Global, chans: &[Chan]) -> Result<KeptChans, AllocError>
        ensures { IfOk result (λ k. chans_of k ≡ chans.now) }
    {
        match few(chans) {
            Some(few) => Ok(few),
            None => {
                let list = Box::new(alloc, chans.to_vec(alloc)?)?;
                Ok(KeptChans::List(list))
            }
        }
    }

    /// The same channels.
    pub fn dup(&self, alloc: Global) -> Result<KeptChans, AllocError>
        ensures { IfOk result (λ k. chans_of k ≡ chans_of self.now) }
    {
        match self {
            KeptChans::One(one) => Ok(KeptChans::One(*one)),
            KeptChans::Two(first, second) => Ok(KeptChans::Two(*first, *second)),
            KeptChans::Three(first, second, third) => {
                Ok(KeptChans::Three(*first, *second, *third))
            }
            KeptChans::Alike(each, count) => Ok(KeptChans::Alike(*each, *count)),
            KeptChans::List(list) => {
                let list = Box::new(alloc, list.to_vec(alloc)?)?;
                Ok(KeptChans::List(list))
            }
        }
    }
}
