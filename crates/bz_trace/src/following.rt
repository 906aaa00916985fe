//! One line of a trace, played on a net.

ghost use Rattle.std.specs.Prelude.{◌≡◌, ◌<◌, ◌≤◌, IsTrue, None, false, length};
ghost use Rattle.bz_model.specs.Nets.{outside};
ghost use Rattle.bz_model.specs.Entries.{HasLine};
ghost use Rattle.bz_net.specs.Foretelling.{IsForetold};
ghost use Rattle.bz_trace.specs.Following.{Goes, IsLed, Plays, PlaysOn};

use bz_model::{Entry, Move, Reply, Value, Verb, Who};
use bz_net::{Foretold, Play, RestReply};

/// What became of a line: the net went on by it, or no event gives such a line here.
#[derive(Clone, Copy)]
pub(crate) enum Step {
    Goes,
    Stops,
}

/// Makes the one event that gives this line, where there is one.
#[inline(always)]
pub(crate) fn follow(net: &mut Play, line: Entry) -> Step
    requires place { 0 < net.old.left }
    requires has_line { HasLine (outside net.old.wiring) line }
    requires led { IsLed net.old }
    ensures { Plays net.old net.new line result }
{
    match line {
        Entry::Fired {
            who,
            comp,
            port: _,
            chan,
            mv,
            value,
        } => follow_firing(net, who, comp, chan, mv, value),
        Entry::Host {
            who,
            verb,
            port,
            value,
            reply,
        } => follow_command(net, who, verb, port, value, reply),
        Entry::Rested { who } => follow_rest(net, who),
    }
}

#[inline(always)]
fn follow_firing(
    net: &mut Play,
    who: Who,
    comp: u32,
    chan: u32,
    mv: Move,
    value: Option<Value>,
) -> Step
    requires place { 0 < net.old.left }
    requires has_line { HasLine (outside net.old.wiring) (Entry.Fired who comp 0 chan mv value) }
    requires led { IsLed net.old }
    ensures { Plays net.old net.new (Entry.Fired who comp 0 chan mv value) result }
{
    match net.fire_on(who, comp, chan, mv, value) {
        Some(_) => Step::Goes,
        None => Step::Stops,
    }
}

/// Makes the step that was foretold, where a line of the first worker tells it with this value. Whether it was made; if not, the
/// net stays as it was.
#[inline(always)]
pub(crate) fn follow_told(net: &mut Play, told: Foretold, value: Option<Value>) -> bool
    requires has_line { HasLine (outside net.old.wiring) (Entry.Fired (Who.Worker 1) told.comp 0 told.chan told.mv value) }
    requires led { IsLed net.old }
    requires foretold { IsForetold net.old.wiring.sites net.old.state told }
    ensures goes { IsTrue result → Goes net.old net.new (Entry.Fired (Who.Worker 1) told.comp 0 told.chan told.mv value) }
    ensures none { result ≡ false → net.new ≡ net.old }
{
    net.fire_foretold(Who::Worker(1), told, value)
}

#[inline(never)]
fn follow_command(
    net: &mut Play,
    who: Who,
    verb: Verb,
    port: u32,
    value: Option<Value>,
    reply: Reply,
) -> Step
    requires place { 0 < net.old.left }
    requires from { 0 < port }
    requires to { port ≤ length net.old.wiring.ports }
    ensures { Plays net.old net.new (Entry.Host who verb port value reply) result }
{
    if net.core().reply(verb, port) != reply {
        return Step::Stops;
    }
    match net.host_at(who, verb, port, value) {
        Ok(_) => Step::Goes,
        Err(_) => Step::Stops,
    }
}

#[inline(never)]
fn follow_rest(net: &mut Play, who: Who) -> Step
    requires { 0 < net.old.left }
    ensures { Plays net.old net.new (Entry.Rested who) result }
{
    match net.rest(who) {
        Ok(RestReply::Rest) => Step::Goes,
        Ok(RestReply::Ready(_)) => Step::Stops,
        Err(_) => Step::Stops,
    }
}

/// Plays a line where none has stopped yet: the number of the line that stopped, if one has.
#[inline(always)]
pub(crate) fn play_on(
    net: &mut Play,
    line: Entry,
    number: usize,
    stop: Option<usize>,
) -> Option<usize>
    requires place { stop ≡ None → 0 < net.old.left }
    requires has_line { stop ≡ None → HasLine (outside net.old.wiring) line }
    requires led { stop ≡ None → IsLed net.old }
    ensures { PlaysOn net.old net.new line number stop result }
{
    if stop.is_some() {
        return stop;
    }
    match follow(net, line) {
        Step::Goes => None,
        Step::Stops => Some(number),
    }
}
