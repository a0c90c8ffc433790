//! Laws of the definitions that the contracts on words cite, each proved as a contract.

ghost use Rattle.std.specs.Prelude.{◌≡◌, ℕ, ◌≤◌, ◌<◌, ◌^◌, ◌↔◌, List, Some};
ghost use Rattle.std.specs.Fmt.{decimal};
ghost use Rattle.sc_words.specs.Words.{Command, number_to, command_of};
ghost use Rattle.sc_words.specs.Forms.{words_of, IsWithinLimits};

/// A word writes a number of at most so much, which has at most 64 bits, exactly where it is the text that `{}` prints
/// of that number. So each number has one word, and each word at most one number.
pub fn one_numeral()
    ensures { (most : ℕ) (word : List ℕ) (n : ℕ) → most < 2 ^ 64 →
        (number_to most word ≡ Some n) ↔ ((word ≡ decimal n) × (n ≤ most)) }
{}

/// Words ask for a command exactly where they are the words of that command, which is within its
/// limits. So each command has one form of words, and all others have none.
pub fn one_form()
    ensures { (words : List (List ℕ)) (command : Command) →
        (command_of words ≡ Some command) ↔ ((words ≡ words_of command) × IsWithinLimits command) }
{}
