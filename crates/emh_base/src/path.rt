ghost use Rattle.std.specs.Prelude.{◌≡◌, [], ◌∷◌, ◌++◌, IfOk, OnOk, OnErr};

use crate::ids::InstId;
use crate::memory::NoMemory;
use crate::try_copy::TryCopy;
use smallvec::SmallVec;
use std::alloc::Global;
use std::cmp::Ordering;
use std::marker::Model;

/// An occurrence's place in the unfolding: the instances that lead to it from the top. The top has the empty path.
/// Up to eight steps stand in place and take no memory.
#[derive(Debug, Drop)]
pub struct Path {
    steps: SmallVec<InstId, 8>,
}

impl Model for Path {
    ghost use Rattle.std.specs.Prelude.{List};
    ghost use Rattle.emh_base.specs.declared.ids.InstId.{InstId};

    ghost Value = { List InstId };

    ghost view = { λ path. path.steps.items };
}

impl Path {
    /// The empty path.
    pub fn new(alloc: Global) -> Path
        ensures { result ≡ [] }
    {
        Path {
            steps: SmallVec::new(alloc),
        }
    }

    /// Goes one instance further down. After want of memory the path is as before.
    pub fn push(&mut self, step: InstId) -> Result<(), NoMemory>
        ensures ok { OnOk result (self.new ≡ self.old ++ step ∷ []) }
        ensures err { OnErr result (self.new ≡ self.old) }
    {
        self.steps.push(step)?;
        Ok(())
    }

    /// The instances in order from the top.
    pub fn steps(&self) -> &[InstId]
        ensures { result.now ≡ self.now }
    {
        self.steps.as_slice()
    }
}

impl TryCopy for Path {
    fn copy(&self) -> Result<Path, NoMemory> {
        Ok(Path {
            steps: SmallVec::from_slice(*self.steps.allocator(), self.steps.as_slice())?,
        })
    }
}

impl PartialEq for Path {
    ghost use Rattle.std.specs.Ordering.{is_eq};
    ghost use Rattle.std.specs.Cmp.{eq_by_cmp_equiv, partial_equiv_from_equiv};
    ghost use Rattle.emh_base.specs.Path.{path_cmp, path_total};

    ghost eq = { λ path other. is_eq (path_cmp path other) };

    ghost laws = { partial_equiv_from_equiv (eq_by_cmp_equiv path_total) };

    fn eq(&self, other: &Path) -> bool {
        self.cmp(other).is_eq()
    }
}

impl Eq for Path {
    ghost use Rattle.std.specs.Cmp.{eq_by_cmp_equiv};
    ghost use Rattle.emh_base.specs.Path.{path_total};

    ghost laws = { eq_by_cmp_equiv path_total };
}

impl PartialOrd for Path {
    ghost use Rattle.std.specs.Prelude.{Some};
    ghost use Rattle.std.specs.Cmp.{partial_order_from_total};
    ghost use Rattle.emh_base.specs.Path.{path_cmp, path_total};

    ghost partial_cmp = { λ path other. Some (path_cmp path other) };

    ghost laws = { partial_order_from_total path_total };

    fn partial_cmp(&self, other: &Path) -> Option<Ordering> {
        Some(self.cmp(other))
    }
}

/// Paths stand in the order of their steps' ids, by the first step in which they differ. A path stands before those
/// that lead on from it.
impl Ord for Path {
    ghost use Rattle.std.specs.Prelude.{refl};
    ghost use Rattle.emh_base.specs.Path.{path_cmp, path_total};

    ghost cmp = { path_cmp };

    ghost total = { path_total };

    ghost matches_partial_cmp = { λ _ _. refl };

    ghost matches_eq = { λ _ _. refl };

    fn cmp(&self, other: &Path) -> Ordering {
        self.steps().cmp(&other.steps())
    }
}
