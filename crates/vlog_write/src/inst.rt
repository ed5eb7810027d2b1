ghost use Rattle.std.specs.Prelude.{◌≡◌, ◌++◌, List, [], ◌∷◌, OnOk};
ghost use Rattle.flatten_rules.specs.Checks.{HasNets};
ghost use Rattle.flatten_rules.specs.Sound.{IsSound};
ghost use Rattle.vlog_write.specs.Word.{text, name_text};
ghost use Rattle.vlog_write.specs.Layout.{conn as conn_words, conns as conns_words, item};
ghost use Rattle.vlog_write.specs.TreeOf.{conn_tree, conn_trees, inst_item};

use crate::expr::{name_of, push_expr};
use crate::word::{push_comma, push_name};
use emh_base::{Conn, List, NoMemory, PInst, PModule, Plain};
use flatten_rules::module_of;

/// Puts the line of an instance last.
#[tactic(auto, using(crate::proofs::Texts::text_append))]
pub fn push_inst(
    out: &mut List<u8>,
    plain: &Plain,
    holder: &PModule,
    inst: &PInst,
) -> Result<(), NoMemory>
    requires sound { IsSound plain.now }
    requires nets { HasNets holder.now }
    ensures { OnOk result (out.new ≡ out.old
        ++ text (item (inst_item plain.now holder.now inst.now))) }
{
    out.extend(b"  ")?;
    match module_of(plain, inst.master) {
        Some(master) => {
            push_name(out, master.name.as_bytes())?;
            push_opening(out, inst.name.as_bytes())?;
            push_conns(out, holder, master, inst.conns.as_slice())?;
        }
        None => {
            push_name(out, &[])?;
            push_opening(out, inst.name.as_bytes())?;
        }
    }
    out.extend(b");\n")
}

/// Puts the name of an instance last, with a space before it, and the bracket after it.
fn push_opening(out: &mut List<u8>, name: &[u8]) -> Result<(), NoMemory>
    ensures { OnOk result (out.new ≡ out.old ++ (32 ∷ name_text name.now ++ 32 ∷ 40 ∷ [])) }
{
    out.push(b' ')?;
    push_name(out, name)?;
    out.extend(b" (")
}

/// Puts the connections of an instance last, by its master's ports in order.
fn push_conns(
    out: &mut List<u8>,
    holder: &PModule,
    master: &PModule,
    conns: &[Conn],
) -> Result<(), NoMemory>
    requires holder { HasNets holder.now }
    requires master { HasNets master.now }
    ensures { OnOk result (out.new ≡ out.old
        ++ text (conns_words (conn_trees holder.now master.now master.now.ports conns.now))) }
{
    let ports = master.ports.as_slice();
    for (at, conn) in conns.iter().enumerate() {
        if at >= ports.len() {
            return Ok(());
        }
        push_comma(out, at)?;
        push_conn(out, holder, name_of(master, ports[at].net), conn)?;
    }
    Ok(())
}

/// Puts the connection of a port of this name last.
#[tactic(auto, using(crate::proofs::Texts::text_append))]
fn push_conn(out: &mut List<u8>, holder: &PModule, port: &[u8], conn: &Conn) -> Result<(), NoMemory>
    requires { HasNets holder.now }
    ensures { OnOk result (out.new ≡ out.old
        ++ text (conn_words (conn_tree holder.now port.now conn.now))) }
{
    out.push(b'.')?;
    push_name(out, port)?;
    out.push(b'(')?;
    push_expr(out, holder, conn)?;
    out.push(b')')
}
