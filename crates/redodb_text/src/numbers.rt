ghost use Rattle.std.specs.Prelude.{◌≡◌, ◌≢◌, ℕ, ◌≤◌, MatchOption, decimal, true};
ghost use Rattle.std.specs.Str.{all_ascii_digits};
ghost use Rattle.std.specs.Str.Parse.{digits_value};

/// The number with these decimal digits, if all are digits and the number is not too large.
fn value_of(word: &[u8]) -> Option<u32>
    ensures { MatchOption result
        (all_ascii_digits word.now ≡ true → ¬ (digits_value 10 word.now ≤ 4294967295))
        (λ n. (all_ascii_digits word.now ≡ true)
        × (n ≡ digits_value 10 word.now) × (n ≤ 4294967295)) }
{
    let mut value: u32 = 0;
    for digit in word {
        if !digit.is_ascii_digit() {
            return None;
        }
        let more = value as u64 * 10 + (*digit - b'0') as u64;
        if more > u32::MAX as u64 {
            return None;
        }
        value = more as u32;
    }
    Some(value)
}

/// The number with these decimal digits, without a sign and without a leading zero.
pub fn read_number(word: &[u8]) -> Option<u32>
    ensures { MatchOption result ((n : ℕ) → n ≤ 4294967295 → word.now ≢ decimal n)
        (λ n. word.now ≡ decimal n) }
{
    if word.is_empty() {
        return None;
    }
    if word[0] == b'0' && word.len() > 1 {
        return None;
    }
    value_of(word)
}
