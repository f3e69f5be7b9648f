// Numbers in words.
ghost use Rattle.std.specs.Prelude.{ℕ, MatchOption};
ghost use Rattle.centre_words.specs.Words.{IsNumberOf};
ghost use Rattle.centre_words.specs.Rows.{number_of};

use crate::table::Number;

// What a word of 1 to 20 digits spells, where it may stand for the number.
pub fn number_spelled(word: &str, number: Number) -> Option<u64>
    ensures { MatchOption result ((n : ℕ) → ¬ IsNumberOf (number_of number) word.now n) (IsNumberOf (number_of number) word.now) }
{
    if word.len() > 20 {
        return None;
    }
    if let [b'+', ..] = word.as_bytes() {
        return None;
    }
    match u64::from_str_radix(word, 10) {
        Ok(n) => {
            if number.least <= n && n <= number.most {
                Some(n)
            } else {
                None
            }
        }
        Err(_) => None,
    }
}
