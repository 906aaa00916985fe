//! Cases on their way to the writer.

use crate::asked::Trial;
use crate::case::Case;
use crate::forms::put_cases;
use bz_cli_input::{Fault, send_all};
use bz_text::Text;
use std::io::Write;

/// Writes what is told of all cases, down to the last byte.
pub(crate) fn tell<W: Write>(
    trial: Trial<'_>,
    cases: &[Case],
    output: &mut W,
) -> Result<(), Fault> {
    let mut text = Text::new(trial.alloc);
    put_cases(&mut text, trial.asked, cases);
    match text.whole() {
        Ok(bytes) => Ok(send_all(output, bytes)?),
        Err(_) => Err(Fault::Memory),
    }
}
