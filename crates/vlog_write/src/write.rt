ghost use Rattle.std.specs.Prelude.{◌≡◌, ◌++◌, List, [], ◌∷◌, map, filter, OnOk, IfOk};
ghost use Rattle.std.specs.List.{list_any};
ghost use Rattle.emh_base.specs.declared.plain.PModule.{PModule};
ghost use Rattle.flatten_rules.specs.Sound.{IsSound, IsSoundModule};
ghost use Rattle.vlog_write.specs.Word.{text};
ghost use Rattle.vlog_write.specs.Layout.{modules};
ghost use Rattle.vlog_write.specs.TreeOf.{module_tree, leaves};
ghost use Rattle.vlog_write.specs.Written.{written_cells, written_modules};
ghost use Rattle.vlog_write.specs.inside.Steps.{is_kind};

use crate::module::push_module;
use emh_base::{List, NoMemory, PModule, Plain};

/// The leaves of a sound table as Verilog, between `` `celldefine `` and `` `endcelldefine ``; nothing where there is
/// none.
#[tactic(auto, using(crate::proofs::Texts::cells_text, crate::proofs::Texts::no_cells_text))]
pub fn write_cells(plain: &Plain) -> Result<List<u8>, NoMemory>
    requires { IsSound plain.now }
    ensures { IfOk result (λ bytes. bytes ≡ written_cells plain.now) }
{
    let mut out = List::new(plain.modules.alloc());
    if has_leaf(plain) {
        out.extend(b"`celldefine\n")?;
        push_modules(&mut out, plain, true)?;
        out.extend(b"`endcelldefine\n")?;
    }
    Ok(out)
}

/// The modules of a sound table that are no leaves, as Verilog.
pub fn write_modules(plain: &Plain) -> Result<List<u8>, NoMemory>
    requires { IsSound plain.now }
    ensures { IfOk result (λ bytes. bytes ≡ written_modules plain.now) }
{
    let mut out = List::new(plain.modules.alloc());
    push_modules(&mut out, plain, false)?;
    Ok(out)
}

/// Puts the leaves last, or the other modules.
fn push_modules(out: &mut List<u8>, plain: &Plain, leaf: bool) -> Result<(), NoMemory>
    requires { IsSound plain.now }
    ensures { OnOk result (out.new ≡ out.old
        ++ text (modules (map (module_tree plain.now) (filter (is_kind leaf) plain.now.modules)))) }
{
    let holders = plain.modules.as_slice();
    for holder in holders {
        push_kind(out, plain, leaf, holder)?;
    }
    Ok(())
}

/// Puts a module last where it is a leaf or none, as asked.
#[tactic(auto, using(crate::proofs::Texts::text_append))]
fn push_kind(
    out: &mut List<u8>,
    plain: &Plain,
    leaf: bool,
    holder: &PModule,
) -> Result<(), NoMemory>
    requires sound { IsSound plain.now }
    requires holder { IsSoundModule plain.now holder.now }
    ensures { OnOk result (out.new ≡ out.old
        ++ text (modules (map (module_tree plain.now) (filter (is_kind leaf) (holder.now ∷ []))))) }
{
    if holder.leaf == leaf {
        push_module(out, plain, holder)
    } else {
        Ok(())
    }
}

/// Whether there is a leaf.
fn has_leaf(plain: &Plain) -> bool
    ensures { result ≡ list_any (λ (m : PModule). m.leaf) plain.now.modules }
{
    plain.modules.as_slice().iter().any(|holder| holder.leaf)
}
