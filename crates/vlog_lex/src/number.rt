ghost use Rattle.std.specs.Prelude.{◌≡◌, ◌<◌, ◌≤◌, ◌%◌, ◌^◌};
ghost use Rattle.std.specs.List.{list_all};
ghost use Rattle.std.specs.Option.{SomeIff};
ghost use Rattle.vlog_lex.specs.Number.{digit_of, written, base_of, fits_base, are_digits};

/// What a byte is worth as a digit, 0 to 15, or 16 where it is a digit of no base.
fn digit_of(byte: u8) -> u8
    ensures worth { result ≡ digit_of byte }
    ensures small { result ≤ 16 }
{
    match byte {
        b'0'..=b'9' => byte - b'0',
        b'a'..=b'f' => byte - b'a' + 10,
        b'A'..=b'F' => byte - b'A' + 10,
        _ => 16,
    }
}

/// The base that a letter names: 2, 8, 10 or 16.
pub fn base_of(letter: u8) -> Option<u8>
    ensures { result ≡ base_of letter }
{
    match letter {
        b'b' | b'B' => Some(2),
        b'o' | b'O' => Some(8),
        b'd' | b'D' => Some(10),
        b'h' | b'H' => Some(16),
        _ => None,
    }
}

/// Whether a byte is `_` or a digit of the base.
fn fits_base(base: u8, byte: u8) -> bool
    ensures { result ≡ fits_base base byte }
{
    byte == b'_' || digit_of(byte) < base
}

/// Whether these are digits of the base: some, with no `_` first.
pub fn are_digits(base: u8, digits: &[u8]) -> bool
    ensures { result ≡ are_digits base digits.now }
{
    !digits.is_empty() && digits[0] != b'_' && all_fit(base, digits)
}

/// Whether each of these fits the base.
fn all_fit(base: u8, digits: &[u8]) -> bool
    ensures { result ≡ list_all (fits_base base) digits.now }
{
    digits.iter().all(|&byte| fits_base(base, byte))
}

/// The number that decimal digits write, where it fits in 32 bits.
pub fn decimal(digits: &[u8]) -> Option<u32>
    ensures { SomeIff result (written 10 digits.now < 2 ^ 32) (written 10 digits.now) }
{
    let mut value: u64 = 0;
    for &byte in digits {
        if byte != b'_' {
            value = value * 10 + u64::from(digit_of(byte));
            if value > u64::from(u32::MAX) {
                return None;
            }
        }
    }
    Some(value as u32)
}

/// The lowest `size` bits, 1 to 128, of the number that digits of a base write.
pub fn low_bits(base: u8, size: u8, digits: &[u8]) -> u128
    requires some { 1 ≤ size }
    requires most { size ≤ 128 }
    ensures { result ≡ written base digits.now % 2 ^ size }
{
    let mut bits: u128 = 0;
    for &byte in digits {
        if byte != b'_' {
            bits = bits
                .wrapping_mul(u128::from(base))
                .wrapping_add(u128::from(digit_of(byte)));
        }
    }
    if size == 128 {
        bits
    } else {
        bits % (1 << size)
    }
}
