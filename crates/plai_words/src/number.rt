// Numbers of the command line.
ghost use Rattle.std.specs.Prelude.{◌≡◌, ◌≤◌, true, IfSome};
ghost use Rattle.std.specs.List.{list_all};
ghost use Rattle.plai_words.specs.Numbers.{is_digit, is_short_numeral, decimal, number};

/// The most digits of a number.
const MAX_DIGITS: usize = 6;

fn is_digit(byte: u8) -> bool
    ensures { result ≡ is_digit byte }
{
    byte >= 48 && byte <= 57
}

fn all_digits(text: &[u8]) -> bool
    ensures { result ≡ list_all is_digit text.now }
{
    text.iter().all(|byte| is_digit(*byte))
}

#[tactic(auto, unfolding(crate::specs::Numbers::is_short_numeral))]
fn is_short_numeral(text: &[u8]) -> bool
    ensures { result ≡ is_short_numeral text.now }
{
    1 <= text.len() && text.len() <= MAX_DIGITS && all_digits(text)
}

/// The number that one to six decimal digits write.
fn decimal(text: &[u8]) -> u32
    requires { is_short_numeral text.now ≡ true }
    ensures { result ≡ decimal 0 text.now }
{
    let mut value: u32 = 0;
    for byte in text {
        value = 10 * value + u32::from(*byte - 48);
    }
    value
}

/// The number from 1 to the greatest one that a text writes, with one to six decimal digits and no sign.
#[tactic(auto, unfolding(crate::specs::Numbers::number))]
pub fn number(most: u32, text: &[u8]) -> Option<u32>
    ensures number { result ≡ number most text.now }
    ensures within { IfSome result (λ n. (1 ≤ n) × (n ≤ most)) }
{
    if is_short_numeral(text) {
        let value = decimal(text);
        if 1 <= value && value <= most {
            return Some(value);
        }
    }
    None
}
