//! Numbers as text: decimal digits, or `0x` and hexadecimal digits.
ghost use Rattle.std.specs.Prelude.{◌≡◌, ℕ, ◌+◌, ◌-◌, ◌*◌, ◌^◌, ◌<◌, ◌≤◌, take, slice_index, option_and_then};
ghost use Rattle.std.specs.Char.{digit_char};
ghost use Rattle.rl_policy.specs.Numbers.{hex_digit_at, hex_digits, fitting_option, has_hex_prefix, numeral_of};
ghost use Rattle.rl_policy.specs.Numbers.{number_of};

/// What a text says as a number.
#[derive(Debug, Clone, Copy, PartialEq, Eq)]
pub enum NumberText {
    /// The number that the text writes.
    Value(u64),
    /// The text writes no number.
    Bad,
    /// The text writes a number of more than 64 bits.
    TooLarge,
}

fn hex_digit(digit: u8) -> u8
    requires { digit < 16 }
    ensures { result ≡ digit_char digit }
{
    if digit < 10 {
        b'0' + digit
    } else {
        b'a' + (digit - 10)
    }
}

/// Writes the value in `digits` lower-case hexadecimal digits, with leading zeros, to the first places.
pub fn hex_text(buf: &mut [u8; 16], value: u64, digits: u32)
    requires some { 1 ≤ digits }
    requires most { digits ≤ 16 }
    requires value_fits { value < 16 ^ digits }
    ensures written { (k : ℕ) → k < digits → slice_index buf.new k ≡ hex_digit_at digits value k }
    ensures others { (k : ℕ) → digits ≤ k → slice_index buf.new k ≡ slice_index buf.old k }
{
    for k in 0..digits {
        let low = 4 * (digits - 1 - k);
        buf[k as usize] = hex_digit(((value >> low) & 0xf) as u8);
    }
}

/// Writes the lower-case hexadecimal digits of a number, with no zero in front, and answers how many there are.
///
/// What is in the places after them is left open.
pub fn spell(buf: &mut [u8; 16], value: u64) -> usize
    ensures most { result ≤ 16 }
    ensures digits { take result buf.new ≡ hex_digits value }
{
    io::hex(value, 1, buf)
}

fn appended(value: Option<u64>, radix: u32, digit: u32) -> Option<u64>
    ensures { result ≡ option_and_then (λ v. fitting_option (v * radix + digit)) value }
{
    value?.checked_mul(radix.into())?.checked_add(digit.into())
}

fn numeral(text: &[u8], radix: u32) -> NumberText
    requires least { 2 ≤ radix }
    requires most { radix ≤ 16 }
    ensures { result ≡ numeral_of radix text.now }
{
    if text.is_empty() {
        return NumberText::Bad;
    }
    let mut value = Some(0u64);
    for byte in text {
        let Some(digit) = char::from(*byte).to_digit(radix) else {
            return NumberText::Bad;
        };
        value = appended(value, radix, digit);
    }
    match value {
        Some(value) => NumberText::Value(value),
        None => NumberText::TooLarge,
    }
}

fn has_hex_prefix(text: &[u8]) -> bool
    ensures { result ≡ has_hex_prefix text.now }
{
    text.len() >= 2 && text[0] == b'0' && (text[1] == b'x' || text[1] == b'X')
}

/// Reads a text as a number: decimal digits, or `0x` or `0X` and hexadecimal digits of either case.
///
/// Leading zeros are allowed. A text with a digit that isn't one is `Bad`, however long it is.
pub fn read_number(text: &[u8]) -> NumberText
    ensures { result ≡ number_of text.now }
{
    if has_hex_prefix(text) {
        numeral(&text[2..], 16)
    } else {
        numeral(text, 10)
    }
}
