// Hexadecimal digits, read and written: characters and parts of a byte, so no types of their own.
ghost use Rattle.std.specs.Prelude.{◌≡◌, ◌+◌, ◌*◌, ◌<◌};
ghost use Rattle.frame.specs.Digits.{digit_of, number_of, char_of};

pub(crate) fn digit(c: u8) -> Option<u8>
    ensures { result ≡ digit_of c }
{
    match c {
        b'0'..=b'9' => Some(c - b'0'),
        b'A'..=b'F' => Some(c - b'A' + 10),
        _ => None,
    }
}

// The number of a character that is known to be a digit.
fn number(c: u8) -> u8
    ensures value { result ≡ number_of c }
    ensures bound { result < 16 }
{
    digit(c).unwrap_or(0)
}

// The byte of two such characters.
pub(crate) fn byte(high: u8, low: u8) -> u8
    ensures { result ≡ number_of high * 16 + number_of low }
{
    number(high) * 16 + number(low)
}

pub(crate) fn character(d: u8) -> u8
    requires { d < 16 }
    ensures { result ≡ char_of d }
{
    if d < 10 { b'0' + d } else { b'A' + (d - 10) }
}
