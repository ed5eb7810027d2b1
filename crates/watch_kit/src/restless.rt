ghost use Rattle.std.specs.Prelude.{◌≡◌, ◌++◌, codes, IfOk};
ghost use Rattle.flatten_rules.specs.Sound.{IsSound};
ghost use Rattle.edit_rules.specs.Good.{IsGoodState};
ghost use Rattle.watch_kit.specs.Restless.{restless, rename_to, turn_net, turned};

use desk::Desk;
use emh_base::{Change, Edit, List, ModId, Name, NetId, NoMemory, State};
use emh_session::{Halt, Observer, give_all};
use flatten_rules::net_in;
use std::alloc::Global;

/// Renames each net that is made or renamed and whose name ends in `_p`, so that it ends in `_q`,
/// and the other way round. It serves to try the budget.
#[derive(Drop)]
pub struct Restless {
    alloc: Global,
}

impl Restless {
    pub fn new(alloc: Global) -> Restless {
        Restless { alloc }
    }
}

impl Observer for Restless {
    ghost called = { λ _. codes "Restless" };

    ghost wants = { λ _. restless };

    fn name(&self) -> &[u8] {
        b"Restless"
    }

    fn changed(&self, desk: &mut Desk, entry: u32) -> Result<(), Halt> {
        let edits = answer(self.alloc, desk.state(), desk.change(entry))?;
        give_all(desk, edits.as_slice())
    }
}

fn answer(alloc: Global, state: &State, change: &Change) -> Result<List<Edit>, NoMemory>
    requires { IsGoodState state.now }
    ensures { IfOk result (λ edits. edits ≡ restless state.now change.now) }
{
    match &change.edit {
        Edit::RenameNet { module, net, .. } => turn_net(alloc, state, *module, *net),
        Edit::CreateNet { module, .. } => match change.made {
            Some(made) => turn_net(alloc, state, *module, NetId(made)),
            None => Ok(List::new(alloc)),
        },
        _ => Ok(List::new(alloc)),
    }
}

fn turn_net(alloc: Global, state: &State, id: ModId, net: NetId) -> Result<List<Edit>, NoMemory>
    requires { IsGoodState state.now }
    ensures { IfOk result (λ edits. edits ≡ turn_net state.now id net) }
{
    match net_in(&state.plain, id, net) {
        None => Ok(List::new(alloc)),
        Some(there) => renaming(alloc, id, net, turned(alloc, there.name.as_bytes())?),
    }
}

fn renaming(
    alloc: Global,
    id: ModId,
    net: NetId,
    name: Option<Name>,
) -> Result<List<Edit>, NoMemory>
    ensures { IfOk result (λ edits. edits ≡ rename_to id net name) }
{
    let mut edits = List::new(alloc);
    match name {
        None => Ok(edits),
        Some(name) => {
            edits.push(Edit::RenameNet {
                module: id,
                net,
                name,
            })?;
            Ok(edits)
        }
    }
}

/// The name with the other ending, if it has one of the two.
fn turned(alloc: Global, name: &[u8]) -> Result<Option<Name>, NoMemory>
    ensures { IfOk result (λ other. other ≡ turned name.now) }
{
    let at = name.len().saturating_sub(2);
    let stem = &name[..at];
    let ending = &name[at..];
    if ending == b"_p".as_slice() {
        return Ok(Some(joined(alloc, stem, b"_q")?));
    }
    if ending == b"_q".as_slice() {
        return Ok(Some(joined(alloc, stem, b"_p")?));
    }
    Ok(None)
}

/// The name of two parts that are fit for one.
fn joined(alloc: Global, stem: &[u8], ending: &[u8]) -> Result<Name, NoMemory>
    ensures { IfOk result (λ name. name ≡ stem.now ++ ending.now) }
{
    let mut text = List::from_slice(alloc, stem)?;
    text.extend(ending)?;
    match Name::new(alloc, text.as_slice()) {
        Ok(name) => Ok(name),
        Err(_) => Err(NoMemory),
    }
}
