//! What is read: data, with the pieces of the text that spell them.

ghost use Rattle.std.specs.Prelude.{◌≡◌};

/// The bytes `from..to` of a text, counted from 0.
#[derive(Clone, Copy, Debug, PartialEq, Eq)]
pub struct Span {
    pub from: usize,
    pub to: usize,
}

/// A datum and the piece of the text that spells it, with the quotes or parentheses round it.
#[derive(Debug, Drop)]
pub enum Datum {
    Num(u128, Span),
    /// `#t` or `#f`.
    Truth(bool, Span),
    /// The bytes that stand for what is between the quotes.
    Text(Vec<u8>, Span),
    Symbol(Vec<u8>, Span),
    Items(Vec<Datum>, Span),
}

impl Datum {
    ghost use Rattle.bz_sexpr.specs.Data.{span_of};
    ghost use Rattle.bz_sexpr.specs.Views.{datum_view};

    pub fn span(&self) -> Span
        ensures { result ≡ span_of (datum_view self.now) }
    {
        match self {
            Datum::Num(_, span)
            | Datum::Truth(_, span)
            | Datum::Text(_, span)
            | Datum::Symbol(_, span)
            | Datum::Items(_, span) => *span,
        }
    }
}
