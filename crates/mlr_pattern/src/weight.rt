//! The weight of a pattern: whether it may be refused for its size.
ghost use Rattle.std.specs.Prelude.{◌≡◌, min, nat_le};
ghost use Rattle.mlr_pattern.specs.Weight.{weight, factor, number_at_start};

/// A pattern of this weight or more may be refused for its size.
const HEAVY: usize = 1000;

/// Whether the weight of a pattern is 1,000 or more. The weight is the number of bytes of the text,
/// multiplied by each decimal number that directly follows a `{` or a `,`; the number 0 counts as 1.
pub fn is_heavy(text: &[u8]) -> bool
    ensures { result ≡ nat_le 1000 (weight text.now) }
{
    let mut weight = text.len();
    let mut left = text;
    while let [byte, rest @ ..] = left {
        if weight >= HEAVY {
            return true;
        }
        weight *= factor(*byte, rest);
        left = rest;
    }
    weight >= HEAVY
}

/// The factor of the weight that a byte and the text after it give, at most 1,000.
fn factor(byte: u8, following: &[u8]) -> usize
    ensures { result ≡ min 1000 (factor byte following.now) }
{
    if matches!(byte, b'{' | b',') {
        number_at_start(following).max(1)
    } else {
        1
    }
}

/// The decimal number at the start of a text, at most 1,000.
fn number_at_start(text: &[u8]) -> usize
    ensures { result ≡ min 1000 (number_at_start text.now) }
{
    let mut number = 0;
    let mut left = text;
    while let [byte, rest @ ..] = left {
        if number >= HEAVY || !byte.is_ascii_digit() {
            break;
        }
        number = number * 10 + usize::from(*byte - b'0');
        left = rest;
    }
    number.min(HEAVY)
}
