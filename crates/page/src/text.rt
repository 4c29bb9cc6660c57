ghost use Rattle.std.specs.Prelude.{◌≡◌, ◌∷◌, ◌++◌, length, IfSome, Some, None, MatchOption};
ghost use Rattle.page.specs.Numbers.{number_of};
ghost use Rattle.page.specs.Lines.{before, numbers_of};
ghost use Rattle.page.specs.Texts.{Free};

/// A number has at most so many digits.
const MOST_DIGITS: usize = 20;

/// The number that a text is, if it is one.
// Not `parse`, which takes a plus sign and any number of zeros, and reads a str.
pub fn number(text: &[u8]) -> Option<u64>
    ensures { result ≡ number_of text.now }
{
    if !(1..=MOST_DIGITS).contains(&text.len()) {
        return None;
    }
    let mut value: u128 = 0;
    for byte in text {
        if !byte.is_ascii_digit() {
            return None;
        }
        value = value * 10 + u128::from(*byte - b'0');
    }
    u64::try_from(value).ok()
}

/// What stands before the first `mark` in a text, and what stands after it.
fn cut(text: &[u8], mark: u8) -> Option<(&[u8], &[u8])>
    ensures { MatchOption result (Free mark text.now) (λ p. Free mark p.0.now × (text.now ≡ p.0.now ++ (mark ∷ p.1.now))) }
{
    let at = text.iter().position(|byte| *byte == mark)?;
    Some((&text[..at], &text[at + 1..]))
}

/// The number before the first comma, and what stands after that comma.
pub fn first_number(text: &[u8]) -> Option<(u64, &[u8])>
    ensures { MatchOption result (IfSome (numbers_of text.now) (λ ns. length ns ≡ 1)) (λ p. numbers_of text.now ≡ before p.0 (numbers_of p.1.now)) }
{
    let (field, rest) = cut(text, b',')?;
    let value = number(field)?;
    Some((value, rest))
}
