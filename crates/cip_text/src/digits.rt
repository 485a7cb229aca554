//! The numbers that decimal digits say.
ghost use Rattle.std.specs.Prelude.{◌≡◌, ◌*◌, ◌^◌, ◌+◌, ◌-◌, ◌<◌, ◌≤◌, ◌++◌, length, map, take, true};
ghost use Rattle.std.specs.Char.{is_ascii_digit};
ghost use Rattle.std.specs.Int.Digits.{number_from_digits_after};
ghost use Rattle.std.specs.List.{list_all};
ghost use Rattle.cip_rational.specs.Range.{largest};
ghost use Rattle.cip_rational.specs.Numeral as text;
ghost use Rattle.cip_text.specs.Amounts.{capped};

/// 2^127-1, the greatest number that is kept.
pub(crate) const LARGEST: u128 = 0x7FFF_FFFF_FFFF_FFFF_FFFF_FFFF_FFFF_FFFF;

/// How many zeros stand at the end of digits.
fn zeros_at_end(digits: &[u8]) -> usize
    ensures value { result ≡ text.zeros_at_end digits.now }
    ensures within { result ≤ length digits.now }
{
    let mut kept = digits.len();
    while kept > 0 && digits[kept - 1] == b'0' {
        kept -= 1;
    }
    digits.len() - kept
}

/// How many zeros stand at the end of the digits on both sides of a point.
pub(crate) fn zeros_at_both_ends(whole: &[u8], decimals: &[u8]) -> usize
    ensures value { result ≡ text.zeros_at_end (whole.now ++ decimals.now) }
    ensures within { result ≤ length whole.now + length decimals.now }
{
    let behind = zeros_at_end(decimals);
    if behind < decimals.len() {
        behind
    } else {
        behind + zeros_at_end(whole)
    }
}

/// A number with one more digit at its end, where that is at most 2^127-1.
fn with_digit(value: u128, digit: u8) -> Option<u128>
    requires small { value ≤ largest }
    requires is_digit { is_ascii_digit digit ≡ true }
    ensures { result ≡ capped (value * 10 + (digit - 48)) }
{
    if value > LARGEST / 10 {
        return None;
    }
    let next = value * 10 + u128::from(digit - b'0');
    if next > LARGEST { None } else { Some(next) }
}

/// A number with so many zeros at its end, where that is at most 2^127-1.
pub(crate) fn with_zeros(value: u128, zeros: u128) -> Option<u128>
    requires some { 0 < value }
    requires small { value ≤ largest }
    ensures { result ≡ capped (value * 10 ^ zeros) }
{
    if zeros > 38 {
        return None;
    }
    let mut raised = value;
    for done in 0..zeros {
        let Some(next) = with_digit(raised, b'0') else {
            return None;
        };
        raised = next;
    }
    Some(raised)
}

/// The number that digits say behind those of `start`, where it is at most 2^127-1.
pub(crate) fn grow(start: u128, digits: &[u8]) -> Option<u128>
    requires small { start ≤ largest }
    requires are_digits { list_all is_ascii_digit digits.now ≡ true }
    ensures { result ≡ capped (number_from_digits_after 10 start (map (λ byte. byte - 48) digits.now)) }
{
    let mut value = start;
    for digit in digits {
        let Some(next) = with_digit(value, *digit) else {
            return None;
        };
        value = next;
    }
    Some(value)
}

/// The number that the first digits on both sides of a point say, where it is at most 2^127-1.
pub(crate) fn number_of_first(whole: &[u8], decimals: &[u8], count: usize) -> Option<u128>
    requires are_digits { list_all is_ascii_digit (whole.now ++ decimals.now) ≡ true }
    requires within { count ≤ length whole.now + length decimals.now }
    ensures { result ≡ capped (text.digits_value (take count (whole.now ++ decimals.now))) }
{
    if count <= whole.len() {
        return grow(0, &whole[..count]);
    }
    match grow(0, whole) {
        None => None,
        Some(start) => grow(start, &decimals[..count - whole.len()]),
    }
}
