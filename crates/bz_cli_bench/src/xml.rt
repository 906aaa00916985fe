//! Texts as XML 1.0 has them.

ghost use Rattle.std.specs.Prelude.{◌≡◌};
ghost use Rattle.bz_cli_bench.specs.Xml.{has_place};

use bz_text::Text;

/// Adds a text within the quotes of an attribute. What is no UTF-8 is U+FFFD there, and a character for which there is no place a
/// question mark.
pub(crate) fn put_xml(text: &mut Text, bytes: &[u8]) {
    match String::from_utf8_lossy(text.alloc(), bytes) {
        Ok(letters) => {
            for letter in letters.chars() {
                put_letter(text, letter);
            }
        }
        Err(_) => text.lose(),
    }
}

fn put_letter(text: &mut Text, letter: char) {
    match letter {
        '&' => text.put("&amp;"),
        '<' => text.put("&lt;"),
        '>' => text.put("&gt;"),
        '"' => text.put("&quot;"),
        '\t' => text.put("&#9;"),
        '\n' => text.put("&#10;"),
        '\r' => text.put("&#13;"),
        _ if has_place(letter as u32) => text.put(letter.encode_utf8(&mut [0; 4])),
        _ => text.put("?"),
    }
}

// Whether XML 1.0 has a place for a character.
#[tactic(auto, unfolding(crate::specs::Xml::has_place))]
fn has_place(code: u32) -> bool
    ensures { result ≡ has_place code }
{
    code == 9 || code == 10 || code == 13 || 32 <= code && code <= 0xFFFD || 0x10000 <= code
}
