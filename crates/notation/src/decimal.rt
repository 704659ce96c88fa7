//! Decimal numbers.
ghost use Rattle.std.specs.Prelude.{◌≡◌, ◌<◌, ◌≤◌, length, drop};
ghost use Rattle.notation.specs.Decimal.{digits as digits_of, read_digits, read_number};
ghost use Rattle.notation.specs.Reader.{read_as, rest_of};

// The value of the digits in front, and the rest; a value above 65,535 comes as 65,535.
fn value(text: &[u8]) -> (u16, &[u8])
    ensures { (result.0, result.1.now) ≡ read_digits 0 text.now }
{
    // A loop: a chain over the digits and a cut behind them would go over them twice.
    let mut sum: u16 = 0;
    let mut rest = text;
    while let [digit @ b'0'..=b'9', behind @ ..] = rest {
        sum = sum
            .saturating_mul(10)
            .saturating_add(u16::from(digit - b'0'));
        rest = behind;
    }
    (sum, rest)
}

/// The number in front, and the rest; none where no digit stands there, or a leading zero.
pub(crate) fn front(text: &[u8]) -> Option<(u16, &[u8])>
    ensures { read_as (λ n. n) result ≡ read_number text.now }
{
    match text {
        [b'0', b'0'..=b'9', ..] => None,
        [b'0', rest @ ..] => Some((0, rest)),
        [b'1'..=b'9', ..] => Some(value(text)),
        _ => None,
    }
}

/// The number at a place, and the place behind it; none where no digit stands there, or a leading zero.
// A text and a place, as callers have them: over slices it is `front`.
pub fn number(text: &[u8], at: usize) -> Option<(u16, usize)>
    ensures { rest_of (λ n. n) text.now result ≡ read_number (drop at text.now) }
{
    let (value, rest) = front(text.get(at..)?)?;
    Some((value, text.len() - rest.len()))
}

/// The digits of a number, at the end of an array.
#[derive(Clone, Copy, PartialEq, Eq, Debug)]
pub struct Digits {
    // The start stands beside the array, since itoa fills it from its end and the type is `Copy`.
    bytes: [u8; 20],
    from: usize,
    ghost within: { from < 20 },
}

impl Digits {
    ghost use Rattle.notation.specs.Written.{digits_shown};

    /// The digits of a number, with no leading zero.
    pub fn of(number: u64) -> Digits
        ensures { digits_shown result ≡ digits_of number }
    {
        let mut bytes = [0; 20];
        let from = itoa::write_digits(number, &mut bytes, 20);
        Digits { bytes, from }
    }

    /// The digits as text.
    pub fn text(&self) -> &[u8]
        ensures value { result.now ≡ digits_shown self.now }
        ensures few { length result.now ≤ 20 }
    {
        &self.bytes[self.from..]
    }
}
