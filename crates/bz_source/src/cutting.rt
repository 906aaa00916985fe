//! Texts by their lines.

ghost use Rattle.std.specs.Prelude.{◌≡◌, ◌<◌, ◌==◌, ◌∷◌, ◌++◌, ◌⊎◌, [], List, ℕ, length, not};
ghost use Rattle.std.specs.List.{AllPass};
ghost use Rattle.bz_source.specs.FileLines.{lines_of};

/// The first line of a text, and what follows its line feed.
pub fn cut_line(text: &[u8]) -> (&[u8], &[u8])
    requires { 0 < length text.now }
    ensures lines { lines_of text.now ≡ result.0.now ∷ lines_of result.1.now }
    ensures shorter { length result.1.now < length text.now }
{
    let (line, others) = split_line(text);
    if others.is_empty() {
        return (line, others);
    }
    (line, others.split_at(1).1)
}

// The first line, and its line feed with what follows.
fn split_line(text: &[u8]) -> (&[u8], &[u8])
    ensures whole { result.0.now ++ result.1.now ≡ text.now }
    ensures line { AllPass (λ b. not (b == 10)) result.0.now }
    ensures ended { (result.1.now ≡ []) ⊎ ((rest : List ℕ) × (result.1.now ≡ 10 ∷ rest)) }
{
    let end = text.iter().position(|byte| *byte == b'\n');
    text.split_at(end.unwrap_or(text.len()))
}
