ghost use Rattle.std.specs.Prelude.{◌≡◌, ◌+◌, ◌<◌, IfOk};
ghost use Rattle.flatten_rules.specs.Changes.{with_module, with_inst, with_last_module, at_instances};

use crate::changes::{Insts, OfMaster};
use crate::rewrite::{At, Rewrite, each, with_last};
use emh_base::{InstId, ModId, NoMemory, PInst, PModule, Plain};

/// The table with a module changed.
pub fn with_module<R: Rewrite<PModule> + Drop>(
    plain: &Plain,
    id: ModId,
    change: R,
) -> Result<Plain, NoMemory>
    ensures { IfOk result (λ made. made ≡ with_module plain.now id (R.becomes change)) }
{
    let at = At {
        number: id.0,
        change,
    };
    Ok(Plain {
        modules: each(plain.modules.alloc(), plain.modules.as_slice(), &at)?,
        next_module: plain.next_module,
    })
}

/// The table with a module more, whose id is the counter.
pub fn with_last_module(plain: &Plain, last: PModule) -> Result<Plain, NoMemory>
    requires { plain.now.next_module < 4294967295 }
    ensures { IfOk result (λ made. made ≡ with_last_module plain.now last) }
{
    Ok(Plain {
        modules: with_last(plain.modules.alloc(), plain.modules.as_slice(), last)?,
        next_module: next_id(plain.next_module),
    })
}

/// The number after a counter's.
pub fn next_id(counter: u32) -> u32
    requires { counter < 4294967295 }
    ensures { result ≡ counter + 1 }
{
    counter + 1
}

/// The table with each instance of a module changed, wherever it stands.
pub fn at_instances<R: Rewrite<PInst> + Drop>(
    plain: &Plain,
    id: ModId,
    change: R,
) -> Result<Plain, NoMemory>
    ensures { IfOk result (λ made. made ≡ at_instances plain.now id (R.becomes change)) }
{
    let insts = Insts {
        change: OfMaster { master: id, change },
    };
    Ok(Plain {
        modules: each(plain.modules.alloc(), plain.modules.as_slice(), &insts)?,
        next_module: plain.next_module,
    })
}

/// The table with an instance of a module changed.
pub fn with_inst<R: Rewrite<PInst> + Drop>(
    plain: &Plain,
    id: ModId,
    inst: InstId,
    change: R,
) -> Result<Plain, NoMemory>
    ensures { IfOk result (λ made. made ≡ with_inst plain.now id inst (R.becomes change)) }
{
    let insts = Insts {
        change: At {
            number: inst.0,
            change,
        },
    };
    with_module(plain, id, insts)
}
