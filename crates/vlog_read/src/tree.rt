use emh_base::{Dir, List, Name, Range};

/// The modules of a file, in the order of the text. Each place is that of a token's first byte, counted from 0.
#[derive(Debug, Drop)]
pub struct Tree {
    pub modules: List<TModule>,
}

/// A module as it is written.
#[derive(Debug, Drop)]
pub struct TModule {
    pub name: At,
    /// Whether the last celldefine token before the module is `` `celldefine ``.
    pub marked: bool,
    pub header: Header,
    pub items: List<Item>,
}

/// A name and its place.
#[derive(Debug, Drop)]
pub struct At {
    pub name: Name,
    pub at: u32,
}

/// An index range as it is written, and the place of its first number.
#[derive(Clone, Copy, Debug, PartialEq, Eq)]
pub struct Span {
    pub range: Range,
    pub at: u32,
}

/// What stands between the parentheses after a module's name.
#[derive(Debug, Drop)]
pub enum Header {
    /// Names alone; none where the parentheses are empty or missing.
    Names(List<At>),
    /// One declaration or more, each of a direction.
    Decls(List<Decl>),
}

/// A declaration of one name or more. A bare name in a header of declarations belongs to the declaration before it.
#[derive(Debug, Drop)]
pub struct Decl {
    /// None for a declaration that begins with `wire`.
    pub dir: Option<Dir>,
    /// Whether the word `wire` stands in it.
    pub wire: bool,
    pub range: Option<Span>,
    pub names: List<At>,
}

/// An item of a module.
#[derive(Debug, Drop)]
pub enum Item {
    Decl(Decl),
    /// One instance or more of the module of this name.
    Insts(At, List<TInst>),
}

/// An instance with its connections, of which `( )` is none.
#[derive(Debug, Drop)]
pub struct TInst {
    pub name: At,
    pub conns: List<TConn>,
}

/// A connection of an instance.
#[derive(Debug, Drop)]
pub struct TConn {
    /// The place of its first token, or of the token after it where it is empty.
    pub at: u32,
    /// The port of a connection by name; none for one by order.
    pub port: Option<At>,
    /// The place of the first token of its expression, or of the token after an empty one.
    pub expr_at: u32,
    /// The parts of its expression from the left, with the braces left out; none for an empty one.
    pub parts: List<Part>,
}

/// A part of an expression.
#[derive(Debug, Drop)]
pub enum Part {
    Name(At),
    /// One bit, as `n[3]`.
    Bit(At, u32),
    /// Several bits, as `n[3:0]`.
    Bits(At, Range),
    /// The `size` lowest bits of a value, 1 to 128.
    Lit { size: u8, value: u128 },
}
