//! Cases in the form that is asked for.

use crate::asked::{Asked, Form};
use crate::case::Case;
use crate::json::put_objects;
use crate::junit::put_suite;
use crate::lines::put_lines;
use bz_text::Text;

/// Adds what is told of all cases.
pub(crate) fn put_cases(text: &mut Text, asked: Asked<'_>, cases: &[Case]) {
    match asked.form {
        Form::Text => put_lines(text, asked.benches, cases),
        Form::Json => put_objects(text, asked.benches, cases),
        Form::Junit => put_suite(text, asked.benches, cases),
    }
}
