use emh_base::Name;

/// Why tokens are no sentence of the grammar; `at` is the place of the first token that no sentence has there, counted
/// from 0.
#[derive(Debug, Drop)]
pub enum ParseFault {
    /// A token that may not stand here, or the end of the file, whose place is the number of its bytes.
    Unexpected { at: u32 },
    /// A token of a part of the language that isn't read; `word` is its text.
    Unsupported { at: u32, word: Name },
    NoMemory,
}

impl From<emh_base::NoMemory> for ParseFault {
    ghost use Rattle.std.specs.Prelude.{◌≡◌};
    ghost use Rattle.vlog_read.specs.declared.fault.ParseFault.TheVariants.{NoMemory as no_memory};

    ghost from_gives = { λ _ fault. fault ≡ no_memory };

    fn from(_: emh_base::NoMemory) -> ParseFault {
        ParseFault::NoMemory
    }
}

impl ParseFault {
    ghost use Rattle.std.specs.Prelude.{◌≡◌};
    ghost use Rattle.vlog_read.specs.Code.{parse_code};

    /// The number by which the fault is told in print; 0 for want of memory, which isn't.
    pub fn code(&self) -> u32
        ensures { result ≡ parse_code self.now }
    {
        match self {
            ParseFault::Unexpected { .. } => 48,
            ParseFault::Unsupported { .. } => 49,
            ParseFault::NoMemory => 0,
        }
    }
}
