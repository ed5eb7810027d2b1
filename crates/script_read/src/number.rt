ghost use Rattle.std.specs.Prelude.{◌≡◌, ◌<◌, ◌≤◌, ◌^◌, length, pos, option_map};
ghost use Rattle.std.specs.List.{list_all};
ghost use Rattle.script_read.specs.Word.{is_digit, value_of, are_digits, number_within, number_of, signed_of, minus};

/// The number that 1 to 10 digits write, which is at most 4,294,967,295.
pub fn number_of(word: &[u8]) -> Option<u32>
    ensures { result ≡ number_of word.now }
{
    number_within(4_294_967_295, word)
}

/// The number that 1 to 10 digits write, if it is at most this limit.
fn number_within(limit: u32, word: &[u8]) -> Option<u32>
    ensures { result ≡ number_within limit word.now }
{
    if !are_digits(word) {
        return None;
    }
    let value = value_of(word);
    if value > u64::from(limit) {
        return None;
    }
    Some(value as u32)
}

/// Whether these are 1 to 10 digits.
fn are_digits(word: &[u8]) -> bool
    ensures { result ≡ are_digits word.now }
{
    !word.is_empty() && word.len() <= 10 && all_digits(word)
}

fn all_digits(word: &[u8]) -> bool
    ensures { result ≡ list_all is_digit word.now }
{
    word.iter().all(|byte| byte.is_ascii_digit())
}

/// The number that at most 10 digits write.
fn value_of(word: &[u8]) -> u64
    requires { length word.now ≤ 10 }
    ensures { result ≡ value_of word.now }
{
    let mut value: u64 = 0;
    for &byte in word {
        value = value * 10 + u64::from(byte.saturating_sub(b'0'));
    }
    value
}

/// The number that 1 to 10 digits write, with or without a `-` before them, if it fits in 32 bits.
#[tactic(auto, unfolding(crate::specs::Word::signed_of))]
pub fn signed_of(word: &[u8]) -> Option<i32>
    ensures { result ≡ signed_of word.now }
{
    match word {
        [] => None,
        [first, digits @ ..] => {
            if *first == b'-' {
                number_within(2_147_483_648, digits).map(|number| minus(number))
            } else {
                number_within(2_147_483_647, word).map(|number| number as i32)
            }
        }
    }
}

/// A number with a minus before it.
fn minus(number: u32) -> i32
    requires { number ≤ 2 ^ 31 }
    ensures { result ≡ minus number }
{
    (-i64::from(number)) as i32
}
