//! Observers for tests.
ghost use Rattle.std.specs.Prelude.{◌≡◌, [], ◌∷◌, codes, IfOk};
ghost use Rattle.emh_base.specs.declared.ids.NetId.{NetId};
ghost use Rattle.session_tests.specs.Wanted.{turn, turned, grids};

use desk::Desk;
use emh_base::{Change, Edit, List, ModId, Name, NetId, NoMemory};
use emh_session::{Halt, Observer, give_all};
use std::alloc::Global;

/// Renames each net that is made or renamed: to `x_q` where it is called `x_p`, and else to `x_p`.
#[derive(Drop)]
pub struct Turner {
    pub alloc: Global,
}

impl Observer for Turner {
    ghost called = { λ _. codes "Turner" };

    ghost wants = { λ _ s c. turn c.edit c.made };

    fn name(&self) -> &[u8] {
        b"Turner"
    }

    fn changed(&self, desk: &mut Desk, entry: u32) -> Result<(), Halt> {
        let edits = turn(self.alloc, desk.change(entry))?;
        give_all(desk, edits.as_slice())
    }
}

fn turn(alloc: Global, change: &Change) -> Result<List<Edit>, NoMemory>
    ensures { IfOk result (λ edits. edits ≡ turn change.now.edit change.now.made) }
{
    match &change.edit {
        Edit::RenameNet { module, net, name } => renaming(alloc, *module, *net, name),
        Edit::CreateNet { module, name, .. } => match change.made {
            Some(id) => renaming(alloc, *module, NetId(id), name),
            None => Ok(List::new(alloc)),
        },
        _ => Ok(List::new(alloc)),
    }
}

fn renaming(alloc: Global, id: ModId, net: NetId, name: &Name) -> Result<List<Edit>, NoMemory>
    ensures { IfOk result (λ edits. edits ≡ Edit.RenameNet id net (turned name.now) ∷ []) }
{
    let mut edits = List::new(alloc);
    edits.push(Edit::RenameNet {
        module: id,
        net,
        name: turned(alloc, name)?,
    })?;
    Ok(edits)
}

fn turned(alloc: Global, name: &Name) -> Result<Name, NoMemory>
    ensures { IfOk result (λ other. other ≡ turned name.now) }
{
    if name.as_bytes() == b"x_p".as_slice() {
        named(alloc, b"x_q")
    } else {
        named(alloc, b"x_p")
    }
}

fn named(alloc: Global, bytes: &[u8]) -> Result<Name, NoMemory>
    ensures { IfOk result (λ name. name ≡ bytes.now) }
{
    match Name::new(alloc, bytes) {
        Ok(name) => Ok(name),
        Err(_) => Err(NoMemory),
    }
}

/// Sets the grid twice for each net that is made.
#[derive(Drop)]
pub struct Setter {
    pub alloc: Global,
    pub name: &'static [u8],
    pub first: u32,
    pub second: u32,
}

impl Observer for Setter {
    ghost called = { λ o. o.name.now };

    ghost wants = { λ o s c. grids o.first o.second c.edit };

    fn name(&self) -> &[u8] {
        self.name
    }

    fn changed(&self, desk: &mut Desk, entry: u32) -> Result<(), Halt> {
        let edits = grids(
            self.alloc,
            self.first,
            self.second,
            &desk.change(entry).edit,
        )?;
        give_all(desk, edits.as_slice())
    }
}

fn grids(alloc: Global, first: u32, second: u32, edit: &Edit) -> Result<List<Edit>, NoMemory>
    ensures { IfOk result (λ edits. edits ≡ grids first second edit.now) }
{
    let mut edits = List::new(alloc);
    if let Edit::CreateNet { .. } = edit {
        edits.push(Edit::SetGrid { grid: first })?;
        edits.push(Edit::SetGrid { grid: second })?;
    }
    Ok(edits)
}
