ghost use Rattle.std.specs.Prelude.{◌≡◌, ℕ, ◌++◌, List, map, IsTrue, IsFalse, IfOk, bytes_eq};
ghost use Rattle.std.specs.List.{IsDistinct};

use emh_base::{Name, NoMemory, PInst, PModule, PNet, Pool, TryCopy};

/// What has a name.
pub(crate) trait Named {
    ghost name_of: { Self → List ℕ };

    fn name(&self) -> &Name
        ensures { result.now ≡ name_of self.now };
}

impl Named for PModule {
    ghost name_of = { λ m. m.name };

    fn name(&self) -> &Name {
        &self.name
    }
}

impl Named for PNet {
    ghost name_of = { λ net. net.name };

    fn name(&self) -> &Name {
        &self.name
    }
}

impl Named for PInst {
    ghost name_of = { λ inst. inst.name };

    fn name(&self) -> &Name {
        &self.name
    }
}

/// Puts the names of the items into a pool, until one is there already. Whether all were new.
pub(crate) fn put_new<T: Named>(pool: &mut Pool, items: &[T]) -> Result<bool, NoMemory>
    ensures new { IfOk result (λ new. IsTrue new → pool.new ≡ pool.old ++ map (λ item. T.name_of item) items.now) }
    ensures known { IfOk result (λ new. IsFalse new
        → IsDistinct bytes_eq (pool.old ++ map (λ item. T.name_of item) items.now) → ⊥) }
{
    for item in items {
        let count = pool.len();
        if pool.number(item.name().copy()?)? != count {
            return Ok(false);
        }
    }
    Ok(true)
}
