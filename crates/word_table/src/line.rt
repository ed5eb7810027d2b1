ghost use Rattle.std.specs.Prelude.{◌≡◌};
ghost use Rattle.word_table.specs.LineWords.{line_texts};

use crate::table::Words;
use crate::words;

/// The table of the 43 words with which a line of a script may begin, those of commands that aren't built yet too.
///
/// The list is this project's own; `specs/LineWords.antt` spells it out.
#[tactic(auto, unfolding(crate::specs::LineWords::line_texts))]
pub fn line_words() -> Words<43>
    ensures { result ≡ line_texts }
{
    const TABLE: &[&[u8]] = words![
        b"at" b"begin" b"cells" b"check" b"churn" b"compare" b"connect" b"create_inst"
        b"create_module" b"create_net" b"create_port" b"delete_inst" b"delete_module" b"delete_net"
        b"delete_port" b"disconnect" b"drop" b"eco" b"end" b"fill" b"generate" b"group" b"ignore"
        b"keep" b"legal" b"load" b"lock" b"observe" b"place" b"redo" b"rename_inst" b"rename_module"
        b"rename_net" b"report" b"resize" b"set_fanout" b"set_grid" b"undo" b"ungroup" b"uniquify"
        b"unlock" b"unplace" b"write"
    ];
    Words::new(TABLE)
}
