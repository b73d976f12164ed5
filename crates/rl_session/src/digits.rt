// Digits of a number.
ghost use Rattle.std.specs.Prelude.{◌≡◌, ◌≤◌, length, take};

/// The first of the digits, so many of them.
pub fn front(digits: &[u8; 16], len: usize) -> &[u8]
    requires { len ≤ length digits.now }
    ensures { result.now ≡ take len digits.now }
{
    &digits[..len]
}
