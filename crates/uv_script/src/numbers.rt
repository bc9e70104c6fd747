//! Numbers as scripts spell them.

ghost use Rattle.std.specs.Prelude.{◌≡◌, ◌+◌, ◌-◌, ◌*◌, ◌<◌, ◌^◌};
ghost use Rattle.std.specs.Char.{is_ascii_digit};
ghost use Rattle.std.specs.List.{list_all};
ghost use Rattle.uv_script.specs.Numbers.{number_of, decimal_of, hex_of, is_decimal, is_hex, has_bare_front, decimal_value, hex_value, is_hex_digit, hex_digit, are_hex_digits};

/// The number that a word spells, if it is below 2^64: decimal digits without leading zeros, or `0x` and 1 to
/// 16 hexadecimal digits in either case.
pub(crate) fn number(word: &[u8]) -> Option<u64>
    ensures { result ≡ number_of word.now }
{
    match word.strip_prefix(b"0x") {
        Some(digits) => hex(digits),
        None => decimal(word),
    }
}

/// The number that decimal digits spell, if it is below 2^64 and spelled without leading zeros.
pub(crate) fn decimal(digits: &[u8]) -> Option<u64>
    ensures { result ≡ decimal_of digits.now }
{
    if is_decimal(digits) {
        decimal_value(digits)
    } else {
        None
    }
}

fn is_decimal(digits: &[u8]) -> bool
    ensures { result ≡ is_decimal digits.now }
{
    starts_bare(digits) && are_digits(digits)
}

pub(crate) fn are_digits(bytes: &[u8]) -> bool
    ensures { result ≡ list_all is_ascii_digit bytes.now }
{
    bytes.iter().all(|byte| byte.is_ascii_digit())
}

/// Whether there is a first byte, which is `0` only where it is the only one.
pub(crate) fn starts_bare(digits: &[u8]) -> bool
    ensures { result ≡ has_bare_front digits.now }
{
    match digits {
        [] => false,
        [first, _, ..] => *first != b'0',
        [_] => true,
    }
}

/// One more than the last number.
pub const LIMIT: u128 = 18_446_744_073_709_551_616;

/// The hexadecimal digits of a number, at most.
pub const NUMBER_DIGITS: usize = 16;

const _: () = prove!(LIMIT == 1 << 64);

const _: () = prove!(NUMBER_DIGITS == 16);

/// The digits' value, if it is below 2^64.
fn decimal_value(digits: &[u8]) -> Option<u64>
    ensures { result ≡ decimal_value digits.now }
{
    let mut value: u128 = 0;
    for digit in digits {
        value = decimal_behind(value, *digit);
        if value >= LIMIT {
            return None;
        }
    }
    Some(value as u64)
}

/// The value of decimal digits and one more behind them.
fn decimal_behind(value: u128, digit: u8) -> u128
    requires { value < LIMIT }
    ensures { result ≡ 10 * value + (digit - 48) }
{
    10 * value + u128::from(digit.saturating_sub(b'0'))
}

/// The number that 1 to 16 hexadecimal digits spell.
fn hex(digits: &[u8]) -> Option<u64>
    ensures { result ≡ hex_of digits.now }
{
    if is_hex(digits) {
        hex_value(digits)
    } else {
        None
    }
}

fn is_hex(digits: &[u8]) -> bool
    ensures { result ≡ is_hex digits.now }
{
    1 <= digits.len() && digits.len() <= NUMBER_DIGITS && are_hex_digits(digits)
}

fn are_hex_digits(bytes: &[u8]) -> bool
    ensures { result ≡ are_hex_digits bytes.now }
{
    bytes.iter().all(|byte| is_hex_digit(*byte))
}

fn is_hex_digit(byte: u8) -> bool
    ensures { result ≡ is_hex_digit byte }
{
    (b'0' <= byte && byte <= b'9')
        || (b'A' <= byte && byte <= b'F')
        || (b'a' <= byte && byte <= b'f')
}

/// The digits' value, if it is below 2^64, as that of 16 digits is.
fn hex_value(digits: &[u8]) -> Option<u64>
    ensures { result ≡ hex_value digits.now }
{
    let mut value: u128 = 0;
    for digit in digits {
        value = hex_behind(value, *digit);
        if value >= LIMIT {
            return None;
        }
    }
    Some(value as u64)
}

/// The value of hexadecimal digits and one more behind them.
fn hex_behind(value: u128, digit: u8) -> u128
    requires { value < LIMIT }
    ensures { result ≡ 16 * value + hex_digit digit }
{
    16 * value + u128::from(hex_digit(digit))
}

/// What a hexadecimal digit stands for.
fn hex_digit(byte: u8) -> u8
    ensures { result ≡ hex_digit byte }
{
    if byte < b':' {
        byte.saturating_sub(b'0')
    } else if byte < b'a' {
        byte.saturating_sub(b'A' - 10)
    } else {
        byte.saturating_sub(b'a' - 10)
    }
}
