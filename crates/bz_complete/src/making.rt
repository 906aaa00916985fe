//! One move more of a net.

ghost use Rattle.std.specs.Prelude.{◌≡◌, ℕ, Option, ◌<◌, ◌≤◌, ◌∷◌, ◌↔◌, [], length, None, false, IfOk, IsTrue, if◌then◌else◌};
ghost use Rattle.bz_complete.specs.Completing.{Gains};
ghost use Rattle.bz_complete.specs.Shown.{is_done, shown_move, shown_word};
ghost use Rattle.bz_complete.specs.declared.making.Maker.TheVariants as Maker;
ghost use Rattle.bz_complete.specs.Stopping.{IsMaker, IsStop, word_of};
ghost use Rattle.bz_model.specs.declared.event.Reply.TheVariants.{Done};

use crate::refusing::{refuse_turn, refuse_word};
use crate::short::{Sent, ShortMove};
use bz_model::{Move, NetError, Reply, Value, Verb, Who};
use bz_net::Net;

/// Who makes the moves of components.
pub(crate) const WORKER: Who = Who::Worker(1);

/// Who gives the host's words.
const HOST: Who = Who::Host(1);

/// Who makes a move of a short trace.
#[derive(Clone, Copy, PartialEq, Eq)]
pub enum Maker {
    /// The component at the channel's end, at this port of it.
    Comp { comp: u32, port: u32 },
    /// The host, at the external port that the channel is.
    Host,
    /// There is no such channel, or nothing stands at that end.
    Nobody,
}

/// Who makes a move: what stands at the active end asks, and what stands at the passive one replies.
pub(crate) fn maker_of(net: &Net, due: ShortMove) -> Maker
    ensures { IsMaker net.now.wiring due result }
{
    // (the wiring tells that no port is on a channel that the net doesn't have)
    let _ = net.names();
    if due.chan == 0 || due.chan > net.core().chan_count() {
        return Maker::Nobody;
    }
    let [active, passive] = net.ends(due.chan);
    let (end, mv) = match due.sent {
        Sent::Ask => (active, Move::Ask),
        Sent::Reply => (passive, Move::Reply),
    };
    match end {
        Some(comp) => match net.port_at(comp, due.chan, mv) {
            Some(port) => Maker::Comp { comp, port },
            None => Maker::Nobody,
        },
        None if due.chan as usize <= net.names().ports().len() => Maker::Host,
        None => Maker::Nobody,
    }
}

/// Makes the move of a component at a port, if it is the one that is due. Whether it is.
pub(crate) fn sends(net: &mut Net, comp: u32, port: u32, due: ShortMove) -> Result<bool, NetError>
    ensures { IfOk result (λ is. Gains net.old net.new (if is then due ∷ [] else [])) }
{
    match net.foresee(comp, port) {
        Some((chan, mv, value)) if is_due(due, chan, mv, value) => {
            net.fire_move(WORKER, comp, port)?;
            Ok(true)
        }
        _ => Ok(false),
    }
}

// Whether a move shows what is due.
pub(crate) fn is_due(due: ShortMove, chan: u32, mv: Move, value: Option<Value>) -> bool
    ensures { IsTrue result ↔ shown_move chan mv value ≡ due ∷ [] }
{
    let is_sent = match mv {
        Move::Ask => due.sent == Sent::Ask,
        Move::Reply => due.sent == Sent::Reply,
        Move::Take | Move::Got => false,
    };
    is_sent && chan == due.chan && value == due.value
}

/// Makes the take or the got of a component at a port, if it has one there. Whether it has.
pub(crate) fn notices(net: &mut Net, comp: u32, port: u32) -> Result<bool, NetError>
    ensures { IfOk result (λ _. Gains net.old net.new []) }
{
    match net.foresee(comp, port) {
        Some((_, mv, _)) if is_silent(mv) => {
            net.fire_move(WORKER, comp, port)?;
            Ok(true)
        }
        _ => Ok(false),
    }
}

// Whether a move shows nothing.
fn is_silent(mv: Move) -> bool
    ensures { IsTrue result → (k : ℕ) (v : Option ℕ) → shown_move k mv v ≡ [] }
{
    match mv {
        Move::Take => true,
        Move::Got => true,
        Move::Ask => false,
        Move::Reply => false,
    }
}

/// Makes the move of the host that is due at an external port, and before it notices what the net has sent there. Whether it could.
pub(crate) fn hosts(net: &mut Net, due: ShortMove) -> Result<bool, NetError>
    requires maker { IsMaker net.old.wiring due Maker.Host }
    ensures gains { IfOk result (λ is. Gains net.old net.new (if is then due ∷ [] else [])) }
    ensures stop { IfOk result (λ is. is ≡ false → IsStop net.new due) }
{
    match due.sent {
        Sent::Ask => notes(net, Verb::Collect, due.chan)?,
        Sent::Reply => notes(net, Verb::Accept, due.chan)?,
    }
    says(net, due)
}

// Gives the word that sends a move. Whether it is done.
fn says(net: &mut Net, due: ShortMove) -> Result<bool, NetError>
    requires maker { IsMaker net.old.wiring due Maker.Host }
    ensures gains { IfOk result (λ is. Gains net.old net.new (if is then due ∷ [] else [])) }
    ensures stop { IfOk result (λ is. is ≡ false → IsStop net.new due) }
{
    match net.host_at(HOST, word_of(due.sent), due.chan, due.value) {
        Ok(reply) => {
            if is_done(reply) {
                return Ok(true);
            }
            refuse_turn(&*net, due)
        }
        Err(error) => refuse_word(&*net, due, error),
    }
}

// The word of the host that sends this.
fn word_of(sent: Sent) -> Verb
    ensures { result ≡ word_of sent }
{
    match sent {
        Sent::Ask => Verb::Offer,
        Sent::Reply => Verb::Answer,
    }
}

// Collects or accepts at an external port what is there, if something is.
fn notes(net: &mut Net, verb: Verb, port: u32) -> Result<(), NetError>
    requires from { 0 < port }
    requires to { port ≤ length net.old.wiring.ports }
    requires silent { shown_word verb port None Done ≡ [] }
    ensures { IfOk result (λ _. Gains net.old net.new []) }
{
    if !net.would_answer(verb, port) {
        return Ok(());
    }
    match gives(net, verb, port, None) {
        Ok(_) => Ok(()),
        Err(error) => Err(error),
    }
}

// Gives a word of the host at an external port. Whether it is done.
fn gives(net: &mut Net, verb: Verb, port: u32, value: Option<Value>) -> Result<bool, NetError>
    requires from { 0 < port }
    requires to { port ≤ length net.old.wiring.ports }
    ensures { IfOk result (λ is. Gains net.old net.new (if is then shown_word verb port value Done else [])) }
{
    match net.host_at(HOST, verb, port, value) {
        Ok(reply) => Ok(is_done(reply)),
        Err(error) => not_given(error),
    }
}

// What comes of a word that the net refuses: it is not done, unless no entry can be added.
fn not_given(error: NetError) -> Result<bool, NetError>
    ensures { IfOk result (λ is. is ≡ false) }
{
    match error {
        NetError::Memory | NetError::JournalFull => Err(error),
        _ => Ok(false),
    }
}

fn is_done(reply: Reply) -> bool
    ensures { result ≡ is_done reply }
{
    matches!(reply, Reply::Done)
}
