use emh_base::{LentName, List};

/// The tokens of a file in order, and how many bytes the file has. Their names are lent by the file's bytes.
#[derive(Debug, Drop)]
pub struct Tokens<'a> {
    pub items: List<Token<'a>>,
    pub len: u32,
}

/// A token that stands from the byte at `at` to the byte before `end`, both counted from 0.
#[derive(Debug, Drop)]
pub struct Token<'a> {
    pub kind: TokenKind<'a>,
    pub at: u32,
    pub end: u32,
}

/// What a token is.
#[derive(Debug, Drop)]
pub enum TokenKind<'a> {
    /// An identifier; an escaped one without its backslash.
    Ident(LentName<'a>),
    /// A reserved word, by its row in [`word_table::reserved_words`].
    Reserved(u16),
    /// `` `celldefine ``
    Cell,
    /// `` `endcelldefine ``
    EndCell,
    /// A number without a base.
    Number(u32),
    /// `size` bits, 1 to 128; `value` is the number that is written, modulo 2 to the power of `size`.
    Literal { size: u8, value: u128 },
    /// One byte that stands for itself.
    Mark(u8),
}

/// Why bytes are no tokens; `at` is the place of the fault, counted from 0.
#[derive(Clone, Copy, Debug, PartialEq, Eq)]
pub enum LexFault {
    /// A byte that may not stand here.
    BadByte { at: u32 },
    /// A `/*` without a `*/`.
    OpenComment { at: u32 },
    /// A `(*` without a `*)`.
    OpenAttribute { at: u32 },
    /// A number above 4,294,967,295, a literal of a wrong size, base or digit, or a `'` on its own.
    BadLiteral { at: u32 },
    /// An identifier of more than 1,024 bytes.
    LongName { at: u32 },
    /// A directive that isn't accepted.
    Directive { at: u32 },
    NoMemory,
}

impl From<emh_base::NoMemory> for LexFault {
    ghost use Rattle.std.specs.Prelude.{◌≡◌};
    ghost use Rattle.vlog_lex.specs.declared.token.LexFault.TheVariants.{NoMemory as no_memory};

    ghost from_gives = { λ _ fault. fault ≡ no_memory };

    fn from(_: emh_base::NoMemory) -> LexFault {
        LexFault::NoMemory
    }
}

impl LexFault {
    ghost use Rattle.std.specs.Prelude.{◌≡◌};
    ghost use Rattle.vlog_lex.specs.Code.{lex_code};

    /// The number by which the fault is told in print; 0 for want of memory, which isn't.
    pub fn code(&self) -> u32
        ensures { result ≡ lex_code self.now }
    {
        match self {
            LexFault::BadByte { .. } => 41,
            LexFault::OpenComment { .. } => 42,
            LexFault::OpenAttribute { .. } => 43,
            LexFault::BadLiteral { .. } => 44,
            LexFault::LongName { .. } => 45,
            LexFault::Directive { .. } => 46,
            LexFault::NoMemory => 0,
        }
    }
}
