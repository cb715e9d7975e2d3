//! Digits of a base (ISO/IEC 13211-1:1995, 6.4.4).
ghost use Rattle.std.specs.Prelude.{◌≡◌, ◌+◌, ◌*◌, ◌≤◌, ◌<◌, length, MatchOption, IfSome};
ghost use Rattle.std.specs.Option.{SomeIff};
ghost use Rattle.plai_lex.specs.Numbers.{digits_at, is_digit_of};

/// Digits of a base: the number that they write, and how many they are.
#[derive(Clone, Copy, Debug, PartialEq, Eq)]
pub struct Digits {
    pub value: u128,
    pub len: usize,
}

/// Whether the byte is a digit of the base.
pub fn is_digit_of(base: u32, byte: u8) -> bool
    requires low { 2 ≤ base }
    requires high { base ≤ 36 }
    ensures { result ≡ is_digit_of base byte }
{
    char::from(byte).is_digit(base)
}

/// The number with one more digit behind, or none where it is over the limit.
fn with_digit(value: u128, base: u32, digit: u32, limit: u128) -> Option<u128>
    ensures { SomeIff result (value * base + digit ≤ limit) (value * base + digit) }
{
    let more = value
        .checked_mul(u128::from(base))?
        .checked_add(u128::from(digit))?;
    if more <= limit { Some(more) } else { None }
}

/// The digits of the base at the beginning of the text, or none where their number is over the limit.
pub fn digits_at(text: &[u8], base: u32, limit: u128) -> Option<Digits>
    requires low { 2 ≤ base }
    requires high { base ≤ 36 }
    ensures value { MatchOption result (limit < (digits_at base text.now).value) (λ digits. digits ≡ digits_at base text.now) }
    ensures limited { IfSome result (λ digits. digits.value ≤ limit) }
    ensures within { IfSome result (λ digits. digits.len ≤ length text.now) }
{
    let mut value = 0;
    for (i, byte) in text.iter().enumerate() {
        match char::from(*byte).to_digit(base) {
            Some(digit) => value = with_digit(value, base, digit, limit)?,
            None => return Some(Digits { value, len: i }),
        }
    }
    Some(Digits {
        value,
        len: text.len(),
    })
}
