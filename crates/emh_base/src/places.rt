ghost use Rattle.std.specs.Prelude.{◌≡◌, ◌↔◌, IsTrue, IfOk, OnOk, OnErr};
ghost use Rattle.std.specs.FinMap as map;

use crate::list::List;
use crate::memory::NoMemory;
use crate::path::Path;
use crate::placement::Placement;
use crate::try_copy::TryCopy;
use std::alloc::Global;
use std::collections::BTreeMap;
use std::marker::Model;

/// Where block instances are placed: a finite map from the path of each placed instance to its placement, which
/// contracts see as such. A look-up or a change takes time in proportion to the logarithm of how many there are.
#[derive(Debug, Drop)]
pub struct Places {
    placements: BTreeMap<Path, Placement>,
    alloc: Global,
}

impl Model for Places {
    ghost use Rattle.std.specs.FinMap as map;
    ghost use Rattle.emh_base.specs.declared.placement.Placement.{Placement};
    ghost use Rattle.emh_base.specs.Path.{path_cmp};

    ghost Value = { map.FinMap path_cmp Placement };

    ghost use Rattle.emh_base.specs.Places.{path_code, placement_code};

    ghost coded = { map.code path_code placement_code };

    ghost view = { λ places. map.from_entries places.placements.entries };
}

impl Places {
    /// No placements. It takes no memory yet.
    pub fn new(alloc: Global) -> Places
        ensures { result ≡ map.empty }
    {
        Places {
            placements: BTreeMap::new(alloc),
            alloc,
        }
    }

    /// How many instances are placed.
    pub fn len(&self) -> usize
        ensures { result ≡ map.len self.now }
    {
        self.placements.len()
    }

    pub fn is_empty(&self) -> bool
        ensures { IsTrue result ↔ (self.now ≡ map.empty) }
    {
        self.len() == 0
    }

    /// The placement at a path, or none where there isn't one. It takes no memory.
    pub fn get(&self, path: &Path) -> Option<Placement>
        ensures { result ≡ map.get self.now path.now }
    {
        self.placements.get(path).copied()
    }

    /// Places the instance at a path, in place of an earlier placement. After want of memory the map is as before.
    pub fn set(&mut self, path: Path, to: Placement) -> Result<(), NoMemory>
        ensures ok { OnOk result (self.new ≡ map.insert self.old path to) }
        ensures err { OnErr result (self.new ≡ self.old) }
    {
        self.placements.insert(path, to)?;
        Ok(())
    }

    /// Takes the placement at a path away, where there is one. It takes no memory.
    pub fn remove(&mut self, path: &Path)
        ensures { self.new ≡ map.remove self.old path.now }
    {
        self.placements.remove(path);
    }

    /// The placed paths with their placements, in the order of paths.
    pub fn to_list(&self) -> Result<List<(Path, Placement)>, NoMemory>
        ensures { IfOk result (λ list. list ≡ map.entries self.now) }
    {
        let mut list = List::new(self.alloc);
        for (path, placement) in &self.placements {
            list.push((path.copy()?, *placement))?;
        }
        Ok(list)
    }
}

impl TryCopy for Places {
    fn copy(&self) -> Result<Places, NoMemory> {
        let mut made = Places::new(self.alloc);
        for (path, placement) in &self.placements {
            made.set(path.copy()?, *placement)?;
        }
        Ok(made)
    }
}
