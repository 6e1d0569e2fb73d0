//! Options of reading a file: whether damaged parts of it are refused or tolerated.
ghost use Rattle.std.specs.Prelude.{◌≡◌, ◌↔◌, IsTrue};
ghost use Rattle.goblin_base.specs.Common.{ComparesAndClones};

/// What reading does with damaged parts of a file.
#[derive(Clone, Copy, Debug, Default, PartialEq, Eq)]
pub enum ParseMode {
    /// They are refused.
    #[default]
    Strict,
    /// They are tolerated where possible.
    Permissive,
}

impl ParseMode {
    /// Reports whether damaged parts are tolerated.
    pub fn is_permissive(&self) -> bool
        ensures { IsTrue result ↔ (self.now ≡ ParseMode.Permissive) }
    {
        *self == ParseMode::Permissive
    }
}

/// The options of reading a file.
#[derive(Clone, Copy, Debug, Default, PartialEq, Eq)]
pub struct ParseOptions {
    /// What is done with damaged parts of the file.
    pub parse_mode: ParseMode,
}

impl ParseOptions {
    /// Returns the default options, which are strict.
    pub fn new() -> Self
        ensures { result ≡ record { parse_mode = ParseMode.Strict } }
    {
        ParseOptions::default()
    }

    /// Returns the options that tolerate damaged parts.
    pub fn permissive() -> Self
        ensures { result ≡ record { parse_mode = ParseMode.Permissive } }
    {
        ParseOptions::new().with_parse_mode(ParseMode::Permissive)
    }

    /// Returns the options that refuse damaged parts.
    pub fn strict() -> Self
        ensures { result ≡ record { parse_mode = ParseMode.Strict } }
    {
        ParseOptions::new().with_parse_mode(ParseMode::Strict)
    }

    /// Returns these options with another mode.
    pub fn with_parse_mode(mut self, parse_mode: ParseMode) -> Self
        ensures { result ≡ record { parse_mode = parse_mode } }
    {
        self.parse_mode = parse_mode;
        self
    }
}

/// Laws of modes and options: `==` is true exactly if both are the same. `clone` returns the value, and never fails.
/// The default is strict.
pub fn laws()
    ensures derived_mode { ComparesAndClones ⟦<ParseMode as PartialEq>⟧ ⟦<ParseMode as Clone>⟧ }
    ensures derived_options { ComparesAndClones ⟦<ParseOptions as PartialEq>⟧ ⟦<ParseOptions as Clone>⟧ }
    ensures default_mode { (mode : ParseMode) → ⟦<ParseMode as Default>⟧.is_default mode → mode ≡ ParseMode.Strict }
    ensures default_options { (options : ParseOptions) → ⟦<ParseOptions as Default>⟧.is_default options
        → options ≡ record { parse_mode = ParseMode.Strict } }
{}
