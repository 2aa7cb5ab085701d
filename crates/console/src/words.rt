//! Words of a line as values.
ghost use Rattle.std.specs.Prelude.{◌≡◌, ◌⊎◌, ◌-◌, Some, Ok, Err, MatchOption, MatchResult};
ghost use Rattle.console.specs.Digits.{Digit, Digits, digit_values};
ghost use Rattle.console.specs.declared.misread.Misread.TheVariants.{NoBits, NoMemory, NotBits, TooManyWords};

use crate::misread::Misread;
use std::alloc::Global;

/// The bits that a word writes, if there is a word; digits from 2 on are handed on, so that the codec refuses them.
pub fn bits_word(heap: Global, word: Option<&str>) -> Result<Vec<u8>, Misread>
    ensures value { MatchOption word.entry (result ≡ Err NoBits) (λ text. MatchResult result (λ v. Digits text.now × (v.items ≡ digit_values text.now)) (λ e. (e ≡ NoMemory) ⊎ ((e ≡ NotBits) × (Digits text.now → ⊥)))) }
{
    digits(heap, word.ok_or(Misread::NoBits)?)
}

/// A command that took its words, unless more are left.
pub fn alone<K: Drop>(command: K, next_word: Option<&str>) -> Result<Option<K>, Misread>
    ensures value { MatchOption next_word.entry (result ≡ Ok (Some command)) (λ _. result ≡ Err TooManyWords) }
{
    match next_word {
        None => Ok(Some(command)),
        Some(_) => Err(Misread::TooManyWords),
    }
}

// The digits of a text as numbers.
fn digits(heap: Global, text: &str) -> Result<Vec<u8>, Misread>
    ensures value { MatchResult result (λ v. Digits text.now × (v.items ≡ digit_values text.now)) (λ e. (e ≡ NoMemory) ⊎ ((e ≡ NotBits) × (Digits text.now → ⊥))) }
{
    let mut values = Vec::new(heap);
    for byte in text.as_bytes() {
        values.push(digit(*byte)?)?;
    }
    Ok(values)
}

fn digit(byte: u8) -> Result<u8, Misread>
    ensures value { MatchResult result (λ value. Digit byte × (value ≡ byte - 48)) (λ e. (e ≡ NotBits) × (Digit byte → ⊥)) }
{
    match byte {
        b'0'..=b'9' => Ok(byte - b'0'),
        _ => Err(Misread::NotBits),
    }
}

#[cfg(test)]
mod tests {
    use super::*;

    #[test]
    fn ten_digits(rt: HostRuntime) {
        let found = bits_word(rt.alloc(), Some("0123456789"));
        let values = [0, 1, 2, 3, 4, 5, 6, 7, 8, 9];
        assert!(rt; matches!(&found, Ok(found) if found.as_slice() == values.as_slice()));
    }
}
