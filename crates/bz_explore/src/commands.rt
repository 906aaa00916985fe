//! Lines as commands.
//!
//! `run:N` is taken as `run N`, which goes on where the last run ended and doesn't begin at component 1 again. A run that fills
//! the journal is answered as far as it went, and then that the journal is full.

use crate::answer::Answer;
use crate::table::{Command, Form};
use bz_kind_rows::kind_rows;
use bz_model::wide_count_of;
use bz_view::Piece;
use std::alloc::{AllocError, Global};

/// What a line asks for: a command of this form.
#[derive(Clone, Copy)]
pub(crate) struct Call<'w> {
    pub form: Form,
    /// Whether a file is written over.
    pub over: bool,
    /// The kind that stands in front of a component's number.
    pub kind: Option<&'w str>,
    /// The first word behind those of the command and a kind; of what the host does the one word that it is.
    pub first: Option<&'w str>,
    pub second: Option<&'w str>,
    /// All words behind those of the command.
    pub rest: &'w [&'w str],
}

impl Call<'_> {
    /// The number that stands first, as it was typed.
    pub fn number(self) -> Option<u64> {
        wide_count_of(self.first.unwrap_or(""))
    }
}

/// The words of a line, up to a `#`. A `run:N` is two of them.
pub(crate) fn words_of<'l>(alloc: Global, line: &'l str) -> Result<Vec<&'l str>, AllocError> {
    let mut words = Vec::new(alloc);
    let before = line.split('#').next().unwrap_or("");
    for (place, word) in before.split_whitespace().enumerate() {
        let rest = match word.strip_prefix("run:") {
            Some(count) if place == 0 && wide_count_of(count).is_some() => {
                words.push("run")?;
                count
            }
            _ => word,
        };
        words.push(rest)?;
    }
    Ok(words)
}

/// The command that words ask for, if they ask for one; why they ask for none is told.
pub(crate) fn call_of<'w>(
    words: &'w [&'w str],
    typed: &[u8],
    answer: &mut Answer,
) -> Option<Call<'w>> {
    let [head, rest @ ..] = words else {
        return None;
    };
    match (Form::begun_by(head), Form::of_host(head)) {
        (Some(form), _) => command_of(form, head.ends_with('!'), rest, answer),
        (None, Some(form)) => word_of(form, head, rest, answer),
        (None, None) => {
            answer.no_command(head, typed);
            None
        }
    }
}

// The call of a command, with the words behind its first one.
fn command_of<'w>(
    form: Form,
    over: bool,
    rest: &'w [&'w str],
    answer: &mut Answer,
) -> Option<Call<'w>> {
    let form = form.followed_by(rest.first().copied());
    let rest = match (form.second(), rest) {
        (Some(_), [_, behind @ ..]) => behind,
        _ => rest,
    };
    let (kind, given) = kind_before(form, rest);
    if is_misfit(form, given, answer) {
        return None;
    }
    Some(Call {
        form,
        over,
        kind,
        first: given.first().copied(),
        second: given.get(1).copied(),
        rest,
    })
}

// The call of what the host does, unless more words stand behind it.
fn word_of<'w>(
    form: Form,
    head: &'w str,
    rest: &'w [&'w str],
    answer: &mut Answer,
) -> Option<Call<'w>> {
    if let Some(more) = rest.first() {
        answer.misfit(form, more, "too much");
        return None;
    }
    Some(Call {
        form,
        over: false,
        kind: None,
        first: Some(head),
        second: None,
        rest,
    })
}

// The kind that stands in front of a component's number, if one does, and the words behind it.
fn kind_before<'w>(form: Form, words: &'w [&'w str]) -> (Option<&'w str>, &'w [&'w str]) {
    match words {
        [kind, behind @ ..] if form.takes_thing() && is_kind(kind) && has_number(behind) => {
            (Some(*kind), behind)
        }
        _ => (None, words),
    }
}

fn is_kind(word: &str) -> bool {
    kind_rows().iter().any(|row| row.word() == word.as_bytes())
}

fn has_number(words: &[&str]) -> bool {
    match words.first() {
        Some(word) => wide_count_of(word).is_some(),
        None => false,
    }
}

// Whether the words behind that of a command aren't those that belong there, which is told.
fn is_misfit(form: Form, words: &[&str], answer: &mut Answer) -> bool {
    match (form.taken_at(words.len()), words.get(form.most())) {
        _ if form.is_host() => {
            let port = words.first().copied().unwrap_or("P");
            let pieces = [Piece::Text(form.word()), Piece::Shown(port.as_bytes())];
            answer.complain(
                "a port follows its word after a colon, as in %:%\n",
                &pieces,
            );
        }
        (Some(wanting), _) if !wanting.starts_with('[') => {
            let pieces = [Piece::Text(form.typed), Piece::Text(wanting)];
            answer.complain("%: % is missing\n", &pieces);
        }
        (_, Some(more)) if !form.takes_many() => answer.misfit(form, more, "too much"),
        _ => return lacks_number(form, words, answer),
    }
    true
}

// Whether a word that stands for a number is none, which is told.
fn lacks_number(form: Form, words: &[&str], answer: &mut Answer) -> bool {
    for (place, word) in words.iter().enumerate() {
        let is_number = match form.taken_at(place) {
            Some("C") => chan_number(word).is_none(),
            Some("[P]") => matches!(form.command, Command::Fire),
            Some("N" | "[N]") => true,
            _ => false,
        };
        if is_number && wide_count_of(word).is_none() {
            answer.misfit(form, word, "no number");
            return true;
        }
    }
    false
}

/// The number of a channel that a word is, as `k133`.
pub(crate) fn chan_number(word: &str) -> Option<u64> {
    wide_count_of(word.strip_prefix('k')?)
}
