ghost use Rattle.std.specs.Prelude.{◌≡◌, [], ◌++◌, ◌==◌, length, take, OnOk, OnErr, if◌then◌else◌};
ghost use Rattle.flatten_rules.specs.Design.{IsGood};
ghost use Rattle.reports.specs.Where.{path_line, where_text};

use emh_base::{List, ModId, NoMemory, Plain};
use flatten_rules::{Walk, Way};
use std::alloc::Global;

/// Puts the report of where a module is last: the path of each of its occurrences, in preorder. After want of memory
/// some of it may stand there.
pub fn push_whereabouts(
    alloc: Global,
    plain: &Plain,
    top: ModId,
    id: ModId,
    out: &mut List<u8>,
) -> Result<(), NoMemory>
    requires { IsGood plain.now top }
    ensures ok { OnOk result (out.new ≡ out.old ++ where_text plain.now top id) }
    ensures err { OnErr result (take (length out.old) out.new ≡ out.old) }
{
    let mut walk = Walk::new(alloc, plain, top)?;
    while walk.advance()? {
        let way = walk.way();
        push_if_of(way, way.module().id, id, out)?;
    }
    Ok(())
}

/// Puts the line of the occurrence at the end of the way last, where its module is the one that is asked for.
fn push_if_of(way: &Way<'_>, here: ModId, asked: ModId, out: &mut List<u8>) -> Result<(), NoMemory>
    ensures ok { OnOk result (out.new ≡ out.old
        ++ (if here.0 == asked.0 then path_line way.now.plain way.now.top (way.now.path, here) else [])) }
    ensures err { OnErr result (take (length out.old) out.new ≡ out.old) }
{
    if here.0 != asked.0 {
        return Ok(());
    }
    way.push_path(out)?;
    out.push(b'\n')
}
