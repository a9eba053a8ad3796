//! The words of a line, with one space between them.

ghost use Rattle.std.specs.Prelude.{◌≡◌, ◌==◌, ◌+◌, ◌≤◌, ◌∷◌, IfSome, length, option_map, option_copied};
ghost use Rattle.std.specs.List.{slice_split};
ghost use Rattle.model_base.specs.Script as model;
ghost use Rattle.run_scripts.specs.Scripts.{IsShort};
ghost use Rattle.run_scripts.specs.ScriptWords.{parts_of, len_behind, alone, pair_alone};

/// How many bytes a word may have.
const WORD_LIMIT: usize = 1024;

/// What comes before the first `separator`, and what comes after it, where there is one.
pub fn split_once(text: &[u8], separator: u8) -> (&[u8], Option<&[u8]>)
    ensures parts { slice_split (λ b. b == separator) text.now
        ≡ result.0.now ∷ parts_of separator (option_copied result.1) }
    ensures lengths { length result.0.now + len_behind (option_copied result.1) ≡ length text.now }
{
    match text.iter().position(|byte| *byte == separator) {
        Some(at) => (&text[..at], Some(&text[at + 1..])),
        None => (text, None),
    }
}

/// Whether this has the length of a word.
pub fn is_word(word: &[u8]) -> bool
    ensures { result ≡ model.is_word word.now }
{
    !word.is_empty() && word.len() <= WORD_LIMIT
}

/// The one word that is left of a line, if nothing else is left.
pub fn one_word(rest: Option<&[u8]>) -> Option<&[u8]>
    ensures word { option_copied result ≡ alone (parts_of 32 (option_copied rest.entry)) }
    ensures len { IfSome result (λ w. length w.now + 1 ≡ len_behind (option_copied rest.entry)) }
    ensures short { IfSome result (λ w. IsShort w.now) }
{
    let (word, behind) = split_once(rest?, b' ');
    if behind.is_some() {
        return None;
    }
    is_word(word).then_some(word)
}

/// The two words that are left of a line, if nothing else is left.
pub fn two_words(rest: Option<&[u8]>) -> Option<(&[u8], &[u8])>
    ensures commands { option_map (λ p. (p.0.now, p.1.now)) result
        ≡ pair_alone (parts_of 32 (option_copied rest.entry)) }
    ensures len { IfSome result
        (λ p. length p.0.now + length p.1.now + 2 ≡ len_behind (option_copied rest.entry)) }
    ensures short { IfSome result (λ p. IsShort p.0.now × IsShort p.1.now) }
{
    let (first, behind) = split_once(rest?, b' ');
    let second = one_word(behind)?;
    is_word(first).then_some((first, second))
}
