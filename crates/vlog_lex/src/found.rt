ghost use Rattle.std.specs.Prelude.{◌≡◌};

use crate::token::TokenKind;

/// What stands at a place: where it ends, and its token unless it is passed over.
#[derive(Drop)]
pub struct Found<'a> {
    pub end: usize,
    pub token: Option<TokenKind<'a>>,
}

impl<'a> Found<'a> {
    /// A piece that is passed over.
    pub fn blank(end: usize) -> Found<'a>
        ensures end { result.end ≡ end }
        ensures none { result.token ≡ None }
    {
        Found { end, token: None }
    }

    /// A token.
    pub fn token(end: usize, kind: TokenKind<'a>) -> Found<'a>
        ensures end { result.end ≡ end }
        ensures some { result.token ≡ Some kind.entry }
    {
        Found {
            end,
            token: Some(kind),
        }
    }
}
