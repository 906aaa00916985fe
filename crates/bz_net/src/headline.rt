//! Any list of events, played on a net.

ghost use Rattle.std.specs.Prelude.{◌≡◌, IfOk, OnErr};
ghost use Rattle.bz_net.specs.Headline.{Headline};

use crate::event::{Answer, Event};
use crate::net::Net;
use bz_model::{NetError, Who};
use std::alloc::{AllocError, Global};

/// Plays events of anybody, one after another, and hands back what each was answered, or why it was refused. An event that is
/// refused ends nothing. Where memory for the answers is refused, no event is played.
pub fn play_events(
    alloc: Global,
    net: &mut Net,
    events: &[(Who, Event<'_>)],
) -> Result<Vec<Result<Answer, NetError>>, AllocError>
    ensures headline { IfOk result (λ answers. Headline net.old net.new events.now answers.items) }
    ensures err { OnErr result (net.new ≡ net.old) }
{
    let mut answers = Vec::with_capacity(alloc, events.len())?;
    for (who, event) in events {
        answers.push_reserved(net.serve(*who, *event));
        // A look at the journal brings that no channel is broken here.
        let _ = net.journal();
    }
    // And that it tells a run.
    let _ = net.journal();
    Ok(answers)
}
