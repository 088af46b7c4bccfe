//! What words say, as a relation, and that it is what they are read as.

ghost use Rattle.std.specs.Prelude.{ℕ, ◌≡◌, ◌↔◌, List, Some};
ghost use Rattle.cli_words.specs.declared.settings.Settings.{Settings};
ghost use Rattle.cli_words.specs.CommandWords.{nothing};
ghost use Rattle.cli_words.specs.Words.{settings_from};
ghost use Rattle.cli_words.specs.Sayings.{AreSaid};

/// Law: the words behind a command's name are read as settings exactly where they say them: each thing at most once, in
/// any order.
pub fn settings_are_said()
    ensures { (words : List (List ℕ)) (said : Settings) →
        (settings_from nothing words ≡ Some said) ↔ AreSaid words nothing said }
{}
