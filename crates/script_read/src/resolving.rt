ghost use Rattle.std.specs.Prelude.{◌≡◌, IsTrue};
ghost use Rattle.flatten_rules.specs.Sound.{IsSound};
ghost use Rattle.edit_rules.specs.Good.{IsGoodState};
ghost use Rattle.script_read.specs.Resolve.{Resolves, is_edit, resolution};

use crate::command::{BitWord, Command};
use crate::look::{a_module, a_net, a_path, a_pin, a_port, an_inst};
use crate::sources::sources;
use edit_rules::{Facts, Judged};
use emh_base::{Dir, Edit, List, Name, Placement, Range, TryCopy};
use std::alloc::Global;

impl Command {
    ghost use Rattle.script_read.specs.Resolve.{is_edit};

    /// Whether the command is an edit of the design.
    pub fn is_edit(&self) -> bool
        ensures { result ≡ is_edit self.now }
    {
        !matches!(
            self,
            Command::Load { .. }
                | Command::Cells { .. }
                | Command::Write { .. }
                | Command::Compare { .. }
                | Command::Generate { .. }
                | Command::Churn { .. }
                | Command::Undo
                | Command::Redo
                | Command::Observe { .. }
                | Command::Ignore { .. }
                | Command::Report(_)
        )
    }
}

/// The edit that a command asks for, with its names looked up in a design, from the left. The first word that names
/// nothing refuses the line, with its rule and its place; a `connect` of more than 4,096 bits is refused as soon as
/// these are counted. A name to be given isn't looked up.
pub fn resolve<F: Facts>(alloc: Global, facts: &F, command: &Command) -> Result<Edit, Judged>
    requires good { IsGoodState (F.state facts.now) }
    requires edit { IsTrue (is_edit command.now) }
    ensures { Resolves (resolution (F.state facts.now) command.now) result }
{
    match command {
        Command::CreateModule { name } => Ok(Edit::CreateModule { name: name.copy()? }),
        Command::DeleteModule { module } => delete_module(facts, module),
        Command::RenameModule { module, name } => rename_module(facts, module, name),
        Command::Lock { module } => lock(facts, module),
        Command::Unlock { module } => unlock(facts, module),
        Command::CreateNet {
            module,
            name,
            range,
        } => create_net(facts, module, name, *range),
        Command::DeleteNet { module, net } => delete_net(facts, module, net),
        Command::CreatePort {
            module,
            name,
            dir,
            range,
        } => create_port(facts, module, name, *dir, *range),
        Command::DeletePort { module, port } => delete_port(facts, module, port),
        Command::RenameNet { module, net, name } => rename_net(facts, module, net, name),
        Command::CreateInst {
            module,
            name,
            master,
        } => create_inst(facts, module, name, master),
        Command::DeleteInst { module, inst } => delete_inst(facts, module, inst),
        Command::Connect {
            module,
            inst,
            port,
            bits,
        } => connect(alloc, facts, module, inst, port, bits),
        Command::Disconnect { module, inst, port } => disconnect(facts, module, inst, port),
        Command::RenameInst { module, inst, name } => rename_inst(facts, module, inst, name),
        Command::Resize {
            module,
            inst,
            master,
        } => resize(facts, module, inst, master),
        Command::Uniquify { module, inst, name } => uniquify(facts, module, inst, name),
        Command::Place {
            path,
            x,
            y,
            orient,
            status,
        } => place(
            alloc,
            facts,
            path,
            Placement {
                x: *x,
                y: *y,
                orient: *orient,
                status: *status,
            },
        ),
        Command::Unplace { path } => unplace(alloc, facts, path),
        Command::SetFanout { max, cell } => set_fanout(facts, *max, cell),
        Command::SetGrid { grid } => Ok(Edit::SetGrid { grid: *grid }),
        _ => unreachable!(),
    }
}

fn delete_module<F: Facts>(facts: &F, module: &Name) -> Result<Edit, Judged>
    requires { IsSound (F.state facts.now).plain }
    ensures { Resolves (resolution (F.state facts.now) (Command.DeleteModule «module».now)) result }
{
    let module = a_module(facts, 1, module)?;
    Ok(Edit::DeleteModule { module })
}

fn rename_module<F: Facts>(facts: &F, module: &Name, name: &Name) -> Result<Edit, Judged>
    requires { IsSound (F.state facts.now).plain }
    ensures { Resolves (resolution (F.state facts.now) (Command.RenameModule «module».now name.now)) result }
{
    let module = a_module(facts, 1, module)?;
    let name = name.copy()?;
    Ok(Edit::RenameModule { module, name })
}

fn lock<F: Facts>(facts: &F, module: &Name) -> Result<Edit, Judged>
    requires { IsSound (F.state facts.now).plain }
    ensures { Resolves (resolution (F.state facts.now) (Command.Lock «module».now)) result }
{
    let module = a_module(facts, 1, module)?;
    Ok(Edit::Lock { module })
}

fn unlock<F: Facts>(facts: &F, module: &Name) -> Result<Edit, Judged>
    requires { IsSound (F.state facts.now).plain }
    ensures { Resolves (resolution (F.state facts.now) (Command.Unlock «module».now)) result }
{
    let module = a_module(facts, 1, module)?;
    Ok(Edit::Unlock { module })
}

fn create_net<F: Facts>(
    facts: &F,
    module: &Name,
    name: &Name,
    range: Option<Range>,
) -> Result<Edit, Judged>
    requires { IsSound (F.state facts.now).plain }
    ensures { Resolves (resolution (F.state facts.now) (Command.CreateNet «module».now name.now range)) result }
{
    let module = a_module(facts, 1, module)?;
    let name = name.copy()?;
    Ok(Edit::CreateNet {
        module,
        name,
        range,
    })
}

fn delete_net<F: Facts>(facts: &F, module: &Name, net: &Name) -> Result<Edit, Judged>
    requires { IsSound (F.state facts.now).plain }
    ensures { Resolves (resolution (F.state facts.now) (Command.DeleteNet «module».now net.now)) result }
{
    let module = a_module(facts, 1, module)?;
    let net = a_net(facts, module, 2, net)?;
    Ok(Edit::DeleteNet { module, net })
}

fn create_port<F: Facts>(
    facts: &F,
    module: &Name,
    name: &Name,
    dir: Dir,
    range: Option<Range>,
) -> Result<Edit, Judged>
    requires { IsSound (F.state facts.now).plain }
    ensures { Resolves (resolution (F.state facts.now) (Command.CreatePort «module».now name.now dir range)) result }
{
    let module = a_module(facts, 1, module)?;
    let name = name.copy()?;
    Ok(Edit::CreatePort {
        module,
        name,
        dir,
        range,
    })
}

fn delete_port<F: Facts>(facts: &F, module: &Name, port: &Name) -> Result<Edit, Judged>
    requires { IsSound (F.state facts.now).plain }
    ensures { Resolves (resolution (F.state facts.now) (Command.DeletePort «module».now port.now)) result }
{
    let module = a_module(facts, 1, module)?;
    let port = a_port(facts, module, 2, port)?;
    Ok(Edit::DeletePort { module, port })
}

fn rename_net<F: Facts>(facts: &F, module: &Name, net: &Name, name: &Name) -> Result<Edit, Judged>
    requires { IsSound (F.state facts.now).plain }
    ensures { Resolves (resolution (F.state facts.now) (Command.RenameNet «module».now net.now name.now)) result }
{
    let module = a_module(facts, 1, module)?;
    let net = a_net(facts, module, 2, net)?;
    let name = name.copy()?;
    Ok(Edit::RenameNet { module, net, name })
}

fn create_inst<F: Facts>(
    facts: &F,
    module: &Name,
    name: &Name,
    master: &Name,
) -> Result<Edit, Judged>
    requires { IsSound (F.state facts.now).plain }
    ensures { Resolves (resolution (F.state facts.now) (Command.CreateInst «module».now name.now master.now)) result }
{
    let module = a_module(facts, 1, module)?;
    let master = a_module(facts, 3, master)?;
    let name = name.copy()?;
    Ok(Edit::CreateInst {
        module,
        name,
        master,
    })
}

fn delete_inst<F: Facts>(facts: &F, module: &Name, inst: &Name) -> Result<Edit, Judged>
    requires { IsSound (F.state facts.now).plain }
    ensures { Resolves (resolution (F.state facts.now) (Command.DeleteInst «module».now inst.now)) result }
{
    let module = a_module(facts, 1, module)?;
    let inst = an_inst(facts, module, 2, inst)?;
    Ok(Edit::DeleteInst { module, inst })
}

fn connect<F: Facts>(
    alloc: Global,
    facts: &F,
    module: &Name,
    inst: &Name,
    port: &Name,
    bits: &List<BitWord>,
) -> Result<Edit, Judged>
    requires { IsSound (F.state facts.now).plain }
    ensures { Resolves (resolution (F.state facts.now)
        (Command.Connect «module».now inst.now port.now bits.now)) result }
{
    let module = a_module(facts, 1, module)?;
    let inst = an_inst(facts, module, 2, inst)?;
    let pin = a_pin(facts, module, inst, 3, port)?;
    let bits = sources(alloc, facts, module, pin, bits.as_slice())?;
    Ok(Edit::Connect {
        module,
        inst,
        port: pin.1,
        bits,
    })
}

fn disconnect<F: Facts>(facts: &F, module: &Name, inst: &Name, port: &Name) -> Result<Edit, Judged>
    requires { IsSound (F.state facts.now).plain }
    ensures { Resolves (resolution (F.state facts.now) (Command.Disconnect «module».now inst.now port.now)) result }
{
    let module = a_module(facts, 1, module)?;
    let inst = an_inst(facts, module, 2, inst)?;
    let pin = a_pin(facts, module, inst, 3, port)?;
    Ok(Edit::Disconnect {
        module,
        inst,
        port: pin.1,
    })
}

fn rename_inst<F: Facts>(facts: &F, module: &Name, inst: &Name, name: &Name) -> Result<Edit, Judged>
    requires { IsSound (F.state facts.now).plain }
    ensures { Resolves (resolution (F.state facts.now) (Command.RenameInst «module».now inst.now name.now)) result }
{
    let module = a_module(facts, 1, module)?;
    let inst = an_inst(facts, module, 2, inst)?;
    let name = name.copy()?;
    Ok(Edit::RenameInst { module, inst, name })
}

fn resize<F: Facts>(facts: &F, module: &Name, inst: &Name, master: &Name) -> Result<Edit, Judged>
    requires { IsSound (F.state facts.now).plain }
    ensures { Resolves (resolution (F.state facts.now) (Command.Resize «module».now inst.now master.now)) result }
{
    let module = a_module(facts, 1, module)?;
    let inst = an_inst(facts, module, 2, inst)?;
    let master = a_module(facts, 3, master)?;
    Ok(Edit::Resize {
        module,
        inst,
        master,
    })
}

fn uniquify<F: Facts>(facts: &F, module: &Name, inst: &Name, name: &Name) -> Result<Edit, Judged>
    requires { IsSound (F.state facts.now).plain }
    ensures { Resolves (resolution (F.state facts.now) (Command.Uniquify «module».now inst.now name.now)) result }
{
    let module = a_module(facts, 1, module)?;
    let inst = an_inst(facts, module, 2, inst)?;
    let name = name.copy()?;
    Ok(Edit::Uniquify { module, inst, name })
}

fn place<F: Facts>(
    alloc: Global,
    facts: &F,
    path: &List<Name>,
    placement: Placement,
) -> Result<Edit, Judged>
    requires { IsGoodState (F.state facts.now) }
    ensures { Resolves (resolution (F.state facts.now)
        (Command.Place path.now placement.x placement.y placement.orient placement.status)) result }
{
    let path = a_path(alloc, facts, 1, path.as_slice())?;
    Ok(Edit::Place { path, placement })
}

fn unplace<F: Facts>(alloc: Global, facts: &F, path: &List<Name>) -> Result<Edit, Judged>
    requires { IsGoodState (F.state facts.now) }
    ensures { Resolves (resolution (F.state facts.now) (Command.Unplace path.now)) result }
{
    let path = a_path(alloc, facts, 1, path.as_slice())?;
    Ok(Edit::Unplace { path })
}

fn set_fanout<F: Facts>(facts: &F, max: u32, cell: &Name) -> Result<Edit, Judged>
    requires { IsSound (F.state facts.now).plain }
    ensures { Resolves (resolution (F.state facts.now) (Command.SetFanout max cell.now)) result }
{
    let cell = a_module(facts, 2, cell)?;
    Ok(Edit::SetFanout { max, cell })
}
