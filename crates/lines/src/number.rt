// Decimal numbers.
ghost use Rattle.std.specs.Prelude.{◌≡◌, ◌+◌, ◌-◌, ◌*◌, ◌^◌, ◌<◌, ◌≤◌};
ghost use Rattle.std.specs.Option.{SomeIff, option_map};
ghost use Rattle.lines.specs.Numbers.{number, leading, seen, plain, digits};

// One digit more at the end of a number, where that stays below 2^32.
fn with_digit(value: u32, digit: u8) -> Option<u32>
    requires { 48 ≤ digit }
    ensures { SomeIff result (value * 10 + (digit - 48) < 2 ^ 32) (value * 10 + (digit - 48)) }
{
    value.checked_mul(10)?.checked_add(u32::from(digit - b'0'))
}

// What the leading digits write, where that is below 2^32, and the bytes after them. The bytes are
// gone through once, and no further than the digit that passes the bound.
fn leading_number(bytes: &[u8]) -> Option<(u32, &[u8])>
    ensures { option_map seen result ≡ leading bytes.now }
{
    let mut value = 0;
    let mut rest = bytes;
    while let [digit @ b'0'..=b'9', after @ ..] = rest {
        value = with_digit(value, *digit)?;
        rest = after;
    }
    Some((value, rest))
}

// Whether the bytes begin with digits, with no 0 before another digit.
fn is_plain(bytes: &[u8]) -> bool
    ensures { result ≡ plain (digits bytes.now) }
{
    match bytes {
        [b'0', next, ..] => !next.is_ascii_digit(),
        [first, ..] => first.is_ascii_digit(),
        [] => false,
    }
}

// The number that the bytes begin with, and the bytes after it.
pub fn number_at(bytes: &[u8]) -> Option<(u32, &[u8])>
    ensures { option_map seen result ≡ number bytes.now }
{
    if is_plain(bytes) {
        leading_number(bytes)
    } else {
        None
    }
}
