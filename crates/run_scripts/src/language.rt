//! The languages of scripts. `parser` has their lines, and which of them each language has.

ghost use Rattle.std.specs.Prelude.{◌≡◌};
ghost use Rattle.run_scripts.specs.Languages as languages;

/// What a script may say. `grammar_of` has its grammar.
#[derive(Clone, Copy)]
pub enum Language {
    /// The language of a script with a schedule.
    Replay,
    /// The language that has every line.
    Whole,
}

impl Language {
    /// Whether the language has the lines of the write controller's tokens, `stop`, `unstop`, `slow` and `unslow`.
    pub fn has_tokens(self) -> bool
        ensures { result ≡ languages.has_tokens self }
    {
        matches!(self, Language::Whole)
    }
}
