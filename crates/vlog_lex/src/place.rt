ghost use Rattle.std.specs.Prelude.{◌≡◌, ◌≢◌, ◌+◌, ◌<◌, ◌≤◌, length, slice_index, IfSome, IfNone};
ghost use Rattle.vlog_lex.specs.Byte.{star, slash};
ghost use Rattle.vlog_lex.specs.Place.{IsFirst, HoldsNowhere, both_at, ends_line};

/// The byte at a place, or 0 past the end.
pub fn byte_at(bytes: &[u8], at: usize) -> u8
    ensures { result ≡ slice_index bytes.now at }
{
    if at < bytes.len() { bytes[at] } else { 0 }
}

/// Whether two bytes stand at a place, one after the other.
pub fn stand_at(first: u8, second: u8, bytes: &[u8], at: usize) -> bool
    requires { at < length bytes.now }
    ensures { result ≡ both_at first second bytes.now at }
{
    byte_at(bytes, at) == first && byte_at(bytes, at + 1) == second
}

/// The first place from `start` on where a newline stands or the bytes end.
pub fn line_end(bytes: &[u8], start: usize) -> usize
    requires { start ≤ length bytes.now }
    ensures line { IsFirst (ends_line bytes.now) start result }
    ensures within { result ≤ length bytes.now }
{
    for end in start..bytes.len() {
        if bytes[end] == b'\n' {
            return end;
        }
    }
    bytes.len()
}

/// The first place from `start` on where `*/` stands.
pub fn comment_end(bytes: &[u8], start: usize) -> Option<usize>
    requires { start ≤ length bytes.now }
    ensures found { IfSome result (IsFirst (both_at star slash bytes.now) start) }
    ensures none { IfNone result (HoldsNowhere (both_at star slash bytes.now) start) }
    ensures within { IfSome result (λ e. e + 2 ≤ length bytes.now) }
{
    for end in start..bytes.len() {
        if stand_at(b'*', b'/', bytes, end) {
            return Some(end);
        }
    }
    None
}
