//! A netlist with a trace after it.
//!
//! The line that begins the trace is looked for by bytes alone, also within comments and texts of the netlist. As the last
//! line of all, without its LF, it begins a trace too, which is bad at line 1.

ghost use Rattle.std.specs.Prelude.{◌<◌, MatchBool, length};
ghost use Rattle.bz_cli_trace.specs.Splitting.{BeginsLine, BeginsTrace, BeginsWith, EndsLine, IsTraceAt, Splits};

use bz_trace_text::strip;

/// The netlist and the trace of a text: the first line that is exactly that of a trace begins it.
pub fn split_trace(text: &[u8]) -> (&[u8], &[u8])
    ensures { Splits text.now result.0.now result.1.now }
{
    for place in 0..text.len() {
        if is_trace_at(text, place) {
            return (&text[..place], &text[place..]);
        }
    }
    (text, &text[text.len()..])
}

// Whether the line that begins a trace stands at a place.
fn is_trace_at(text: &[u8], place: usize) -> bool
    requires { place < length text.now }
    ensures { MatchBool result (IsTraceAt text.now place) (IsTraceAt text.now place → ⊥) }
{
    if begins_line(text, place) {
        return begins_trace(&text[place..]);
    }
    false
}

fn begins_line(text: &[u8], place: usize) -> bool
    requires { place < length text.now }
    ensures { MatchBool result (BeginsLine text.now place) (BeginsLine text.now place → ⊥) }
{
    if place == 0 {
        return true;
    }
    text[place - 1] == b'\n'
}

fn begins_trace(text: &[u8]) -> bool
    ensures { MatchBool result (BeginsTrace text.now) (BeginsTrace text.now → ⊥) }
{
    if begins_with(text, b"trace 1") {
        return true;
    }
    begins_with(text, b"trace 2")
}

// Whether a line of exactly these words stands at the front.
fn begins_with(text: &[u8], words: &[u8]) -> bool
    ensures { MatchBool result (BeginsWith words.now text.now) (BeginsWith words.now text.now → ⊥) }
{
    match strip(text, words) {
        Some(rest) => ends_line(rest),
        None => false,
    }
}

// Whether a line ends here, or the text does.
fn ends_line(text: &[u8]) -> bool
    ensures { MatchBool result (EndsLine text.now) (EndsLine text.now → ⊥) }
{
    match text.split_first() {
        Some((byte, _)) => *byte == b'\n',
        None => true,
    }
}
