//! Items as they are spelt.

ghost use Rattle.std.specs.Prelude.{◌≡◌, ◌≢◌, ℕ, List, [], ◌∷◌, IfSome, IfNone};
ghost use Rattle.bz_bench.specs.Items.{AreTimes, IsItem, Meaning, Means, at_sign, greater, meaning_of, star};
ghost use Rattle.bz_bench.specs.declared.items.Times.{Times};
ghost use Rattle.bz_bench.specs.declared.stream.Item.{Item};

use crate::stream::Item;
use bz_model::{count_of, value_of};

/// How often an item passes.
#[derive(Clone, Copy)]
pub enum Times {
    Count(u32),
    /// As often as it is asked for.
    Always,
}

/// A word of a port's line.
#[derive(Clone, Copy)]
pub enum Word<'t> {
    Items(Item, Times),
    /// A handshake that is begun and need not end.
    Open,
    /// The items of a file.
    File(&'t str),
}

/// What a word of a port's line stands for, if it is one.
pub fn word_of(word: &str) -> Option<Word<'_>>
    ensures some { IfSome result (λ read. Means word.now (meaning_of read)) }
    ensures none { IfNone result ((meaning : Meaning) → Means word.now meaning → ⊥) }

    // A word has one meaning at most.
    ensures sole { (one other : Meaning) → Means word.now one → Means word.now other → one ≡ other }
{
    if word == ">" {
        return Some(Word::Open);
    }
    match word.strip_prefix('@') {
        Some("") => None,
        Some(path) => Some(Word::File(path)),
        None => items_of(word),
    }
}

// An item, and how often it passes.
fn items_of(word: &str) -> Option<Word<'_>>
    requires begun { word.now ≢ greater ∷ [] }
    requires file { (path : List ℕ) → word.now ≢ at_sign ∷ path }
    ensures some { IfSome result (λ read. Means word.now (meaning_of read)) }
    ensures none { IfNone result ((meaning : Meaning) → Means word.now meaning → ⊥) }
{
    match word.split_once('*') {
        None => {
            let item = item_of(word)?;
            Some(Word::Items(item, Times::Count(1)))
        }
        Some((spelt, digits)) => {
            let item = item_of(spelt)?;
            let times = times_of(digits)?;
            Some(Word::Items(item, times))
        }
    }
}

// One item.
fn item_of(word: &str) -> Option<Item>
    ensures some { IfSome result (IsItem word.now) }
    ensures none { IfNone result ((item : Item) → IsItem word.now item → ⊥) }
{
    match word {
        "." => Some(Item::Handshake),
        "?" => Some(Item::Any),
        digits => match value_of(digits) {
            Some(value) => Some(Item::Value(value)),
            None => None,
        },
    }
}

// How often an item passes, by what follows the star.
fn times_of(digits: &str) -> Option<Times>
    ensures some { IfSome result (AreTimes (star ∷ digits.now)) }
    ensures none { IfNone result ((times : Times) → AreTimes (star ∷ digits.now) times → ⊥) }
{
    if digits.is_empty() {
        return Some(Times::Always);
    }
    match count_of(digits) {
        Some(count) => Some(Times::Count(count)),
        None => None,
    }
}
