//! Laws of words, for each kind of them.

ghost use Rattle.std.specs.Prelude.{◌≡◌, ℕ, List, Some, true};
ghost use Rattle.qx_types.specs.Configuration.{Configuration, IsConfiguration};
ghost use Rattle.qx_words.specs.Kinds.{CanName, Kind, Value, is_word, value_of, value_text};

/// What is printed of a value that has a word is one word, and is read as that value; what is read from a word has a word.
pub fn printed_words_read_back()
    ensures word { (kind : Kind) (config : Configuration) (value : Value kind) → IsConfiguration config.users config.workers → CanName kind config.users value → is_word (value_text kind config value) ≡ true }
    ensures read_back { (kind : Kind) (config : Configuration) (value : Value kind) → IsConfiguration config.users config.workers → CanName kind config.users value → value_of kind config.users (value_text kind config value) ≡ Some value }
    ensures can_name { (kind : Kind) (users : List (List ℕ)) (word : List ℕ) (value : Value kind) → is_word word ≡ true → value_of kind users word ≡ Some value → CanName kind users value }
{}
