ghost use Rattle.std.specs.Prelude.{◌≡◌, ◌<◌, codes, IfOk};
ghost use Rattle.edit_rules.specs.Good.{IsGoodState};
ghost use Rattle.watch_kit.specs.Snap.{is_multiple, rounded, snap, snap_to};

use desk::Desk;
use emh_base::{Change, Edit, List, NoMemory, Path, Placement, State, TryCopy};
use emh_session::{Halt, Observer, give_all};
use std::alloc::Global;

/// Moves each block instance that is placed to the grid that is set, toward zero.
#[derive(Drop)]
pub struct Snap {
    alloc: Global,
}

impl Snap {
    pub fn new(alloc: Global) -> Snap {
        Snap { alloc }
    }
}

impl Observer for Snap {
    ghost called = { λ _. codes "Snap" };

    ghost wants = { λ _. snap };

    fn name(&self) -> &[u8] {
        b"Snap"
    }

    fn changed(&self, desk: &mut Desk, entry: u32) -> Result<(), Halt> {
        let edits = answer(self.alloc, desk.state(), desk.change(entry))?;
        give_all(desk, edits.as_slice())
    }
}

fn answer(alloc: Global, state: &State, change: &Change) -> Result<List<Edit>, NoMemory>
    requires { IsGoodState state.now }
    ensures { IfOk result (λ edits. edits ≡ snap state.now change.now) }
{
    match state.settings.grid {
        None => Ok(List::new(alloc)),
        Some(grid) => match &change.edit {
            Edit::Place { path, .. } => snap_to(alloc, grid, path, state.places.get(path)),
            _ => Ok(List::new(alloc)),
        },
    }
}

fn snap_to(
    alloc: Global,
    grid: u32,
    path: &Path,
    placement: Option<Placement>,
) -> Result<List<Edit>, NoMemory>
    requires { 0 < grid }
    ensures { IfOk result (λ edits. edits ≡ snap_to grid path.now placement) }
{
    match placement {
        None => Ok(List::new(alloc)),
        Some(at) => snap_from(alloc, grid, path, at),
    }
}

fn snap_from(alloc: Global, grid: u32, path: &Path, at: Placement) -> Result<List<Edit>, NoMemory>
    requires { 0 < grid }
    ensures { IfOk result (λ edits. edits ≡ snap_to grid path.now (Some at)) }
{
    let mut edits = List::new(alloc);
    if is_multiple(grid, at.x) && is_multiple(grid, at.y) {
        return Ok(edits);
    }
    edits.push(Edit::Place {
        path: path.copy()?,
        placement: Placement {
            x: rounded(grid, at.x),
            y: rounded(grid, at.y),
            orient: at.orient,
            status: at.status,
        },
    })?;
    Ok(edits)
}

fn is_multiple(grid: u32, number: i32) -> bool
    requires { 0 < grid }
    ensures { result ≡ is_multiple grid number }
{
    rounded(grid, number) == number
}

/// Rounded toward zero to a multiple of the grid.
fn rounded(grid: u32, number: i32) -> i32
    requires { 0 < grid }
    ensures { result ≡ rounded grid number }
{
    let whole = number.unsigned_abs() / grid * grid;
    if number < 0 {
        (-i64::from(whole)) as i32
    } else {
        whole as i32
    }
}
