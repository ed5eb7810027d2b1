ghost use Rattle.std.specs.Prelude.{◌≡◌, ◌≤◌, length};
ghost use Rattle.vlog_lex.specs.Class.{test_of};
ghost use Rattle.vlog_lex.specs.Place.{IsRun};

/// A class of bytes, of which longest runs are read.
#[derive(Clone, Copy)]
pub enum Class {
    /// Space, tab, newline, form feed, carriage return.
    White,
    /// Space, tab.
    Blank,
    /// Letters, digits, `_`, `$`.
    Word,
    /// Digits, `_`.
    Number,
    /// Letters, digits, `_`, `?`.
    Literal,
    /// The bytes 33 to 126.
    Graphic,
}

impl Class {
    /// Whether a byte is of this class.
    pub fn has(self, byte: u8) -> bool
        ensures { result ≡ test_of self byte }
    {
        match self {
            Class::White => matches!(byte, b' ' | b'\t' | b'\n' | 12 | b'\r'),
            Class::Blank => matches!(byte, b' ' | b'\t'),
            Class::Word => matches!(byte, b'A'..=b'Z' | b'a'..=b'z' | b'_' | b'0'..=b'9' | b'$'),
            Class::Number => matches!(byte, b'0'..=b'9' | b'_'),
            Class::Literal => matches!(byte, b'A'..=b'Z' | b'a'..=b'z' | b'_' | b'0'..=b'9' | b'?'),
            Class::Graphic => matches!(byte, 33..=126),
        }
    }

    /// Where the longest run of this class ends that begins at a place.
    pub fn run_end(self, bytes: &[u8], start: usize) -> usize
        requires { start ≤ length bytes.now }
        ensures run { IsRun (test_of self) bytes.now start result }
        ensures within { result ≤ length bytes.now }
    {
        for end in start..bytes.len() {
            if !self.has(bytes[end]) {
                return end;
            }
        }
        bytes.len()
    }
}
