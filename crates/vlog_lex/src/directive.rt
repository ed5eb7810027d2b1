ghost use Rattle.std.specs.Prelude.{◌≡◌, ◌<◌, ◌≤◌, length};
ghost use Rattle.vlog_lex.specs.Piece.{directive_of, PieceBy, DirectiveIs};
ghost use Rattle.vlog_lex.specs.Found.{Finds};

use crate::case::{Case, Directive};
use crate::class::Class;
use crate::found::Found;
use crate::place::line_end;
use crate::token::{LexFault, TokenKind};
use emh_base::FILE_LIMIT;

/// What a directive's name says.
fn directive_of(name: &[u8]) -> Directive
    ensures { result ≡ directive_of name.now }
{
    if name == b"celldefine".as_slice() {
        Directive::Cell
    } else if name == b"endcelldefine".as_slice() {
        Directive::EndCell
    } else if name == b"timescale".as_slice() {
        Directive::Timescale
    } else if name == b"default_nettype".as_slice() {
        Directive::DefaultNettype
    } else {
        Directive::Other
    }
}

/// The directive at a backtick.
pub fn directive(bytes: &[u8], at: usize) -> Result<Found<'_>, LexFault>
    requires place { at < length bytes.now }
    requires limit { length bytes.now ≤ FILE_LIMIT }
    ensures { Finds (PieceBy Case.Directive bytes.now at) result }
{
    let name_end = Class::Word.run_end(bytes, at + 1);
    match directive_of(&bytes[at + 1..name_end]) {
        Directive::Cell => Ok(Found::token(name_end, TokenKind::Cell)),
        Directive::EndCell => Ok(Found::token(name_end, TokenKind::EndCell)),
        Directive::Timescale => Ok(Found::blank(line_end(bytes, name_end))),
        Directive::DefaultNettype => default_nettype(bytes, at, name_end),
        Directive::Other => Err(LexFault::Directive { at: at as u32 }),
    }
}

/// The rest of a `` `default_nettype `` at a place whose name ends before `name_end`.
fn default_nettype(bytes: &[u8], at: usize, name_end: usize) -> Result<Found<'_>, LexFault>
    requires order { at < name_end }
    requires within { name_end ≤ length bytes.now }
    requires limit { length bytes.now ≤ FILE_LIMIT }
    ensures { Finds (DirectiveIs Directive.DefaultNettype bytes.now at name_end) result }
{
    let start = Class::Blank.run_end(bytes, name_end);
    let end = Class::Word.run_end(bytes, start);
    if start > name_end && &bytes[start..end] == b"wire".as_slice() {
        Ok(Found::blank(end))
    } else {
        Err(LexFault::Directive { at: at as u32 })
    }
}
