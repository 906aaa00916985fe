//! Commands of hosts that no run has.

ghost use Rattle.std.specs.Prelude.{◌≡◌};

use crate::scene::Scene;
use bz_explain_notes::Notes;
use bz_model::{NetError, Phase, Reply, Value, Verb, Who, low_bits};
use bz_net::Play;
use bz_view::Piece::{self, Name, Number, Text, Wide};

/// A host's command, as a line has it.
#[derive(Clone, Copy)]
pub(crate) struct Command {
    pub(crate) verb: Verb,
    pub(crate) port: u32,
    pub(crate) value: Option<Value>,
    pub(crate) reply: Reply,
}

/// What a host's command is replied, or why it is refused, where the port is one of the net's.
pub(crate) fn reply_of(
    net: &mut Play,
    who: Who,
    verb: Verb,
    port: u32,
    value: Option<Value>,
) -> Option<Result<Reply, NetError>>
    ensures { net.new.wiring ≡ net.old.wiring }
{
    if port == 0 || port as usize > net.names().ports().len() {
        return None;
    }
    Some(net.host_at(who, verb, port, value))
}

/// The notes of a command that the port doesn't take.
pub(crate) fn explain_refused(
    notes: &mut Notes,
    scene: &Scene<'_>,
    command: Command,
    error: NetError,
) {
    let item = if error == NetError::WrongSide { 2 } else { 4 };
    put_command(notes, scene, command, item);
    let Some(chan) = scene.seen.net.names().chan(command.port) else {
        return notes.say("", &[]);
    };
    let most = Wide(low_bits(Value::MAX, chan.width));
    let kind = Text(chan.kind.word());
    let (form, first) = match error {
        NetError::WrongSide if scene.seen.net.names().passive(command.port) == Some(true) => (
            "which is passive: there the host asks and the net answers\nexpected: offer or collect",
            kind,
        ),
        NetError::WrongSide => (
            "which is active: there the net asks and the host answers\nexpected: accept or answer",
            kind,
        ),
        NetError::ValueMissing => ("and no value\nexpected: a value up to %", most),
        NetError::ValueUnwanted => (
            "which is a % port, and the value%\nexpected: no value",
            kind,
        ),
        _ => (
            "which has % bits, and the value%\nexpected: a value up to %",
            Number(chan.width as usize),
        ),
    };
    let args = [first, Piece::Value(command.value), most];
    notes.say(form, &args);
}

/// The notes of a command whose reply is another one, by the phase of the port's channel.
pub(crate) fn explain_reply(
    notes: &mut Notes,
    scene: &Scene<'_>,
    command: Command,
    phase: Phase,
    due: Reply,
) {
    let item = if command.value.is_some() { 5 } else { 4 };
    put_command(notes, scene, command, item);
    let form = "whose channel is %, and the reply %\nexpected: the reply %";
    let args = [
        Piece::Phase(phase),
        Piece::Reply(command.reply),
        Piece::Reply(due),
    ];
    notes.say(form, &args);
}

// Tells the line, and goes on with what was found: a command at a port.
fn put_command(notes: &mut Notes, scene: &Scene<'_>, command: Command, item: usize) {
    let name = Name(scene.seen.port_name(command.port));
    let args = [name, Text(command.verb.word()), name];
    scene.line.put(notes, item);
    notes.put("port %\nfound: % at port %, ", &args);
}
