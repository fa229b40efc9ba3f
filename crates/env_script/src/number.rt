//! Numbers in a script.

ghost use Rattle.std.specs.Prelude.{◌≡◌, ◌≤◌, ◌^◌, ℕ, true, IfSome, IfNone};
ghost use Rattle.std.specs.List.{list_all};
ghost use Rattle.chp_base.specs.Names.{digit};
ghost use Rattle.env_script.specs.Numbers.{IsNumber, hex_digit_of_word, digit_of_word, number_of_word};

const MOST_HEX_DIGITS: usize = 16;

fn is_digit(byte: u8) -> bool
    ensures { result ≡ digit byte }
{
    matches!(byte, b'0'..=b'9')
}

fn is_hex_digit(byte: u8) -> bool
    ensures { result ≡ hex_digit_of_word byte }
{
    matches!(byte, b'0'..=b'9' | b'a'..=b'f' | b'A'..=b'F')
}

fn are_digits(text: &[u8]) -> bool
    ensures { result ≡ list_all digit text.now }
{
    text.iter().all(|byte| is_digit(*byte))
}

fn are_hex_digits(text: &[u8]) -> bool
    ensures { result ≡ list_all hex_digit_of_word text.now }
{
    text.iter().all(|byte| is_hex_digit(*byte))
}

fn value_of_digit(byte: u8) -> u8
    requires { hex_digit_of_word byte ≡ true }
    ensures { result ≡ digit_of_word byte }
{
    match byte {
        b'0'..=b'9' => byte - b'0',
        b'a'..=b'f' => byte - b'a' + 10,
        _ => byte - b'A' + 10,
    }
}

/// The value of the digits, the highest first, or None where it is above 2^64 - 1.
fn value_of(base: u64, digits: &[u8]) -> Option<u64>
    requires base { 1 ≤ base }
    requires digits { list_all hex_digit_of_word digits.now ≡ true }
    ensures some { IfSome result (λ n. n ≡ number_of_word base digits.now) }
    ensures none { IfNone result (2 ^ 64 ≤ number_of_word base digits.now) }
{
    let mut value: u64 = 0;
    for digit in digits {
        let shifted = base.checked_mul(value)?;
        value = shifted.checked_add(u64::from(value_of_digit(*digit)))?;
    }
    Some(value)
}

/// The number that the word is, or None where it is not one: decimal digits with a value of at most 2^64 - 1, or `0x`
/// and 1 to 16 hexadecimal digits.
pub fn number_of(word: &[u8]) -> Option<u64>
    ensures some { IfSome result (λ n. IsNumber word.now n) }
    ensures none { IfNone result ((n : ℕ) → ¬ IsNumber word.now n) }
{
    match word {
        [b'0', b'x', tail @ ..] => {
            if tail.is_empty() || tail.len() > MOST_HEX_DIGITS || !are_hex_digits(tail) {
                return None;
            }
            value_of(16, tail)
        }
        _ => {
            if word.is_empty() || !are_digits(word) {
                return None;
            }
            value_of(10, word)
        }
    }
}
