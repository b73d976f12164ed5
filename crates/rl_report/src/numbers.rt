// Numbers as text, with no memory taken.
ghost use Rattle.std.specs.Prelude.{◌≡◌, ◌+◌, ◌/◌, ◌%◌, ◌<◌, ◌≤◌, ◌∷◌, length, drop};
ghost use Rattle.io.specs.Digits.{hex_digit_ascii, IsDigitCount};
ghost use Rattle.rl_report.specs.Numbers.{padded, lanes_text};

// The two hexadecimal digits of each byte.
static PAIRS: [u8; 512] = *b"\
    000102030405060708090a0b0c0d0e0f101112131415161718191a1b1c1d1e1f\
    202122232425262728292a2b2c2d2e2f303132333435363738393a3b3c3d3e3f\
    404142434445464748494a4b4c4d4e4f505152535455565758595a5b5c5d5e5f\
    606162636465666768696a6b6c6d6e6f707172737475767778797a7b7c7d7e7f\
    808182838485868788898a8b8c8d8e8f909192939495969798999a9b9c9d9e9f\
    a0a1a2a3a4a5a6a7a8a9aaabacadaeafb0b1b2b3b4b5b6b7b8b9babbbcbdbebf\
    c0c1c2c3c4c5c6c7c8c9cacbcccdcecfd0d1d2d3d4d5d6d7d8d9dadbdcdddedf\
    e0e1e2e3e4e5e6e7e8e9eaebecedeeeff0f1f2f3f4f5f6f7f8f9fafbfcfdfeff";

// The four binary digits of each number below 16.
static FOURS: [u8; 64] = *b"0000000100100011010001010110011110001001101010111100110111101111";

// Writes the two digits of a byte.
fn write_pair(text: &mut [u8], at: usize, byte: u64)
    requires byte { byte < 256 }
    requires room { at + 2 ≤ length text.old }
    ensures { drop at text.new ≡ hex_digit_ascii (byte / 16) ∷ hex_digit_ascii (byte % 16) ∷ drop (at + 2) text.old }
{
    let from = byte as usize * 2;
    text[at] = PAIRS[from];
    text[at + 1] = PAIRS[from + 1];
}

// Writes the last digits of a number, as many as there are places.
#[inline]
pub(crate) fn write_digits(text: &mut [u8], n: u64)
    requires { length text.old % 2 ≡ 0 }
    ensures { text.new ≡ padded (length text.old) n }
{
    let mut rest = n;
    let mut at = text.len();
    while at > 0 {
        at -= 2;
        write_pair(text, at, rest % 256);
        rest /= 256;
    }
}

// The four binary digits of a number.
#[inline]
pub(crate) fn four_digits(n: u64) -> &'static [u8]
    requires { n < 16 }
    ensures value { result.now ≡ lanes_text 4 n }
    ensures len { length result.now ≡ 4 }
{
    let from = n as usize * 4;
    &FOURS[from..from + 4]
}

// How many hexadecimal digits a number has.
#[inline]
pub(crate) fn digit_count(n: u64) -> u32
    ensures value { IsDigitCount 16 1 n result }
    ensures few { result ≤ 16 }
{
    if n < 16 {
        return 1;
    }
    (67 - n.leading_zeros()) / 4
}
