//! The tables after edits of modules.

ghost use Rattle.std.specs.Prelude.{◌≡◌, ◌<◌, IfOk};
ghost use Rattle.edit_rules.specs.Modules.{create_module, delete_module, rename_module, with_lock};

use crate::changes::{Called, Locks};
use crate::rewrite::without;
use crate::table::{with_last_module, with_module};
use emh_base::{List, ModId, Name, NoMemory, PModule, Plain, TryCopy};

/// The table with a new module without content.
pub fn create_module(plain: &Plain, name: &Name) -> Result<Plain, NoMemory>
    requires { plain.now.next_module < 4294967295 }
    ensures { IfOk result (λ made. made ≡ create_module plain.now name.now) }
{
    let alloc = plain.modules.alloc();
    let made = PModule {
        id: ModId(plain.next_module),
        name: name.copy()?,
        leaf: false,
        locked: false,
        nets: List::new(alloc),
        ports: List::new(alloc),
        insts: List::new(alloc),
        next_net: 0,
        next_inst: 0,
    };
    with_last_module(plain, made)
}

/// The table without a module.
pub fn delete_module(plain: &Plain, id: ModId) -> Result<Plain, NoMemory>
    ensures { IfOk result (λ made. made ≡ delete_module plain.now id) }
{
    Ok(Plain {
        modules: without(plain.modules.alloc(), plain.modules.as_slice(), id.0)?,
        next_module: plain.next_module,
    })
}

/// The table in which a module has a new name.
pub fn rename_module(plain: &Plain, id: ModId, name: &Name) -> Result<Plain, NoMemory>
    ensures { IfOk result (λ made. made ≡ rename_module plain.now id name.now) }
{
    with_module(plain, id, Called { name: name.copy()? })
}

/// The table in which a module is locked, or isn't.
pub fn with_lock(plain: &Plain, id: ModId, locked: bool) -> Result<Plain, NoMemory>
    ensures { IfOk result (λ made. made ≡ with_lock plain.now id locked) }
{
    with_module(plain, id, Locks { locked })
}
