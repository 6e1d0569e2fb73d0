//! The options that the program's arguments ask for.
ghost use Rattle.std.specs.Prelude.{◌≡◌, map, string_bytes};
ghost use Rattle.goblin_text.specs.Options.{asked};

use goblin::options::ParseOptions;

/// Returns the options that these words ask for: strict ones for no word, and permissive ones for the one word
/// `permissive`. Returns `None` for other words.
pub fn options_of(words: &[String]) -> Option<ParseOptions>
    ensures { result ≡ asked (map string_bytes words.now) }
{
    match words {
        [] => Some(ParseOptions::strict()),
        [word] if word.as_str() == "permissive" => Some(ParseOptions::permissive()),
        _ => None,
    }
}
