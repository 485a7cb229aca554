//! How many bytes of a text make up the name or the number that stands first.
ghost use Rattle.std.specs.Prelude.{◌≡◌, ◌≤◌, ◌+◌, length};
ghost use Rattle.std.specs.Char.{is_ascii_digit};
ghost use Rattle.std.specs.List.{prefix_len};
ghost use Rattle.cip_text_rules.specs.LpWords as text;

/// Whether a name begins with this byte.
pub(crate) fn begins_name(byte: u8) -> bool
    ensures { result ≡ text.begins_name byte }
{
    byte.is_ascii_alphabetic() || byte == b'_'
}

/// Whether a name goes on with this byte.
pub(crate) fn is_name_byte(byte: u8) -> bool
    ensures { result ≡ text.is_name_byte byte }
{
    byte.is_ascii_alphanumeric() || byte == b'_' || byte == b'.' || byte == b'#' || byte == b'$'
}

/// Whether a number begins with this byte.
pub(crate) fn begins_number(byte: u8) -> bool
    ensures { result ≡ text.begins_number byte }
{
    byte.is_ascii_digit() || byte == b'.'
}

/// How many bytes of a name stand first.
pub(crate) fn name_length(bytes: &[u8]) -> usize
    ensures value { result ≡ prefix_len text.is_name_byte bytes.now }
    ensures within { result ≤ length bytes.now }
{
    bytes.iter().take_while(|byte| is_name_byte(**byte)).count()
}

/// How many digits stand first.
fn digits_length(bytes: &[u8]) -> usize
    ensures value { result ≡ text.digits_length bytes.now }
    ensures within { result ≤ length bytes.now }
{
    bytes
        .iter()
        .take_while(|byte| byte.is_ascii_digit())
        .count()
}

/// The length of a sign that stands first.
fn sign_length(bytes: &[u8]) -> usize
    ensures value { result ≡ text.sign_length bytes.now }
    ensures within { result ≤ length bytes.now }
{
    match bytes {
        [b'+' | b'-', ..] => 1,
        _ => 0,
    }
}

/// The length of an exponent that stands first: `e` or `E`, a sign or none, and digits.
fn exponent_length(bytes: &[u8]) -> usize
    ensures value { result ≡ text.exponent_length bytes.now }
    ensures within { result ≤ length bytes.now }
{
    match bytes {
        [b'e' | b'E', rest @ ..] => {
            let sign = sign_length(rest);
            let digits = digits_length(&rest[sign..]);
            if digits > 0 { 1 + (sign + digits) } else { 0 }
        }
        _ => 0,
    }
}

/// The length of a point that stands first, and the digits behind it.
fn decimals_length(bytes: &[u8]) -> usize
    ensures value { result ≡ text.decimals_length bytes.now }
    ensures within { result ≤ length bytes.now }
{
    match bytes {
        [b'.', rest @ ..] => 1 + digits_length(rest),
        _ => 0,
    }
}

/// The length of the longest number that stands first; 0 where none does.
pub(crate) fn number_length(bytes: &[u8]) -> usize
    ensures value { result ≡ text.number_length bytes.now }
    ensures within { result ≤ length bytes.now }
{
    let digits = digits_length(bytes);
    let mantissa = digits + decimals_length(&bytes[digits..]);
    if digits > 0 || mantissa > 1 {
        mantissa + exponent_length(&bytes[mantissa..])
    } else {
        0
    }
}
