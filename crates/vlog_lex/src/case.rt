ghost use Rattle.std.specs.Prelude.{◌≡◌};

/// Which rule applies at a place: the first of these for which the bytes there fit.
#[derive(Clone, Copy, Debug, PartialEq, Eq)]
pub enum Case {
    /// White space.
    White,
    /// `//`
    LineComment,
    /// `/*`
    BlockComment,
    /// `(*`
    Attribute,
    /// A backtick.
    Directive,
    /// A backslash.
    Escaped,
    /// A letter or `_`.
    Word,
    /// A digit.
    Number,
    /// `'`
    Apostrophe,
    /// Any other byte 33 to 126.
    Mark,
    /// Any other byte.
    Unfit,
}

/// What a backtick and the run after it say.
#[derive(Clone, Copy, Debug, PartialEq, Eq)]
pub enum Directive {
    /// The modules from here on are cells.
    Cell,
    /// The modules from here on are no cells.
    EndCell,
    /// Passed over with the rest of its line.
    Timescale,
    /// Passed over with the word `wire` after it.
    DefaultNettype,
    /// Not accepted.
    Other,
}
