//! The parts of a number text.
ghost use Rattle.std.specs.Prelude.{◌≡◌, ◌==◌, ◌+◌, ◌≤◌, ◌++◌, ◌&&◌, length, take, drop, true, if◌then◌else◌};
ghost use Rattle.std.specs.Char.{is_ascii_digit};
ghost use Rattle.std.specs.List.{list_all, list_any, before_first, after_first, position_or_len};
ghost use Rattle.cip_rational.specs.Numeral as text;

/// `e` or `E`.
fn is_exponent_mark(byte: u8) -> bool
    ensures { result ≡ text.is_exponent_mark byte }
{
    byte == b'e' || byte == b'E'
}

/// Whether a `-` stands first.
pub(crate) fn is_minus(bytes: &[u8]) -> bool
    ensures { result ≡ text.is_minus bytes.now }
{
    match bytes {
        [] => false,
        [first, ..] => *first == b'-',
    }
}

/// The text without a sign in first place.
pub(crate) fn without_sign(bytes: &[u8]) -> &[u8]
    ensures { result.now ≡ text.without_sign bytes.now }
{
    match bytes {
        [first, rest @ ..] if *first == b'+' || *first == b'-' => rest,
        _ => bytes,
    }
}

/// Whether each byte is a decimal digit.
pub(crate) fn all_digits(bytes: &[u8]) -> bool
    ensures { result ≡ list_all is_ascii_digit bytes.now }
{
    bytes.iter().all(|byte| byte.is_ascii_digit())
}

/// Whether there are decimal digits, and nothing else.
pub(crate) fn are_digits(bytes: &[u8]) -> bool
    ensures { result ≡ text.are_digits bytes.now }
{
    !bytes.is_empty() && all_digits(bytes)
}

/// The place of the first such byte; the length where there is none.
fn first_place(bytes: &[u8], wanted: u8) -> usize
    ensures { result ≡ position_or_len (λ byte. byte == wanted) bytes.now }
{
    for (i, byte) in bytes.iter().enumerate() {
        if *byte == wanted {
            return i;
        }
    }
    bytes.len()
}

/// The place of the first `e` or `E`; the length where there is none.
fn first_mark(bytes: &[u8]) -> usize
    ensures { result ≡ position_or_len text.is_exponent_mark bytes.now }
{
    for (i, byte) in bytes.iter().enumerate() {
        if is_exponent_mark(*byte) {
            return i;
        }
    }
    bytes.len()
}

/// What stands before a place, and after it.
pub(crate) fn cut_at(bytes: &[u8], place: usize) -> (&[u8], &[u8])
    requires { place ≤ length bytes.now }
    ensures before { result.0.now ≡ take place bytes.now }
    ensures after { result.1.now ≡ drop (place + 1) bytes.now }
{
    if place < bytes.len() {
        (&bytes[..place], &bytes[place + 1..])
    } else {
        (bytes, &[])
    }
}

/// What stands before the first such byte, and after it; and whether there is one.
pub(crate) fn cut(bytes: &[u8], wanted: u8) -> (&[u8], &[u8], bool)
    ensures before { result.0.now ≡ before_first (λ byte. byte == wanted) bytes.now }
    ensures after { result.1.now ≡ after_first (λ byte. byte == wanted) bytes.now }
    ensures found { result.2 ≡ list_any (λ byte. byte == wanted) bytes.now }
{
    let place = first_place(bytes, wanted);
    let (before, after) = cut_at(bytes, place);
    (before, after, place < bytes.len())
}

/// The mantissa of a text without its sign, and its exponent; and whether it has one.
pub(crate) fn cut_at_mark(bytes: &[u8]) -> (&[u8], &[u8], bool)
    ensures before { result.0.now ≡ text.mantissa bytes.now }
    ensures after { result.1.now ≡ text.exponent bytes.now }
    ensures found { result.2 ≡ list_any text.is_exponent_mark bytes.now }
{
    let place = first_mark(bytes);
    let (before, after) = cut_at(bytes, place);
    (before, after, place < bytes.len())
}

/// Whether the bytes on both sides of a point are decimal digits, and there is one.
fn is_mantissa(whole: &[u8], decimals: &[u8]) -> bool
    ensures { result ≡ text.are_digits (whole.now ++ decimals.now) }
{
    if whole.is_empty() {
        are_digits(decimals)
    } else {
        all_digits(whole) && all_digits(decimals)
    }
}

/// Whether these parts make a number: its digits on both sides of a point, and the digits of its exponent, if it has
/// one.
pub(crate) fn make_number(
    whole: &[u8],
    decimals: &[u8],
    has_exponent: bool,
    exponent: &[u8],
) -> bool
    ensures { result ≡ (text.are_digits (whole.now ++ decimals.now)
        && (if has_exponent then text.are_digits exponent.now else true)) }
{
    if has_exponent {
        is_mantissa(whole, decimals) && are_digits(exponent)
    } else {
        is_mantissa(whole, decimals)
    }
}
