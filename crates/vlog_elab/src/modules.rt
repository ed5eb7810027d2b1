//! The first round, module by module, and what is known of the modules of a table.
ghost use Rattle.std.specs.Prelude.{◌≡◌, ◌<◌, [], ◌∷◌, ◌++◌, map, All, AllPairs, IsSome, IfOk, OnOk};
ghost use Rattle.emh_base.specs.declared.plain.PNet.{PNet};
ghost use Rattle.emh_base.specs.declared.plain.PPort.{PPort};
ghost use Rattle.flatten_rules.specs.Lookup.{net_of};
ghost use Rattle.flatten_rules.specs.Sound.{IsSound};
ghost use Rattle.vlog_elab.specs.Text.{is_leaf};
ghost use Rattle.vlog_elab.specs.Interfaces.{row_port, row_face};
ghost use Rattle.vlog_elab.specs.Declarations.{name_check, entry_checks};
ghost use Rattle.vlog_elab.specs.inside.Walk.{Walks, Checks};
ghost use Rattle.vlog_elab.specs.inside.Walks.{module_walk, with_module};

use crate::fault::{ElabFault, ElabKind, fault};
use crate::interface::{Interface, Known, Port};
use crate::names::Names;
use crate::ports::ports;
use crate::same::same_ports;
use emh_base::{ModId, NoMemory, PModule, PPort, Plain};
use flatten_rules::net_of;
use std::alloc::Global;
use vlog_read::TModule;

/// What is known of the modules of a table.
pub fn known_of(alloc: Global, table: &Plain) -> Result<Known<'_>, NoMemory>
    requires { IsSound table.now }
    ensures { IfOk result (λ known. known
        ≡ record { interfaces = map row_face table.now.modules; next_module = table.now.next_module }) }
{
    let mut interfaces = Names::new(alloc);
    for holder in table.modules.as_slice() {
        add_row(alloc, &mut interfaces, holder)?;
    }
    Ok(Known {
        interfaces,
        next_module: table.next_module,
    })
}

fn add_row<'a>(
    alloc: Global,
    interfaces: &mut Names<'a, Interface<'a>>,
    holder: &'a PModule,
) -> Result<(), NoMemory>
    requires nets { AllPairs (λ (a b : PNet). a.id.0 < b.id.0) holder.now.nets }
    requires ports { All (λ (port : PPort). IsSome (net_of holder.now port.net)) holder.now.ports }
    ensures { OnOk result (interfaces.new ≡ interfaces.old ++ row_face holder.now ∷ []) }
{
    let mut ports = Names::new(alloc);
    for port in holder.ports.as_slice() {
        add_row_port(&mut ports, holder, port)?;
    }
    interfaces.push(
        &holder.name,
        Interface {
            id: holder.id,
            leaf: holder.leaf,
            ports,
        },
    )
}

fn add_row_port<'a>(
    ports: &mut Names<'a, Port>,
    holder: &'a PModule,
    port: &PPort,
) -> Result<(), NoMemory>
    requires nets { AllPairs (λ (a b : PNet). a.id.0 < b.id.0) holder.now.nets }
    requires there { IsSome (net_of holder.now port.now.net) }
    ensures { OnOk result (ports.new ≡ ports.old ++ row_port holder.now port.now ∷ []) }
{
    let Some(net) = net_of(holder, port.net) else {
        unreachable!("a port has a net");
    };
    ports.push(
        &net.name,
        Port {
            dir: port.dir,
            range: net.range,
        },
    )
}

/// Looks at modules in order, and adds them to what is known.
pub fn add_modules<'a>(
    alloc: Global,
    all_leaf: bool,
    known: &mut Known<'a>,
    modules: &'a [TModule],
) -> Result<(), ElabFault>
    ensures { Walks (module_walk all_leaf) known.old modules.now result known.new }
{
    for m in modules {
        add_module(alloc, all_leaf, known, m)?;
    }
    Ok(())
}

fn add_module<'a>(
    alloc: Global,
    all_leaf: bool,
    known: &mut Known<'a>,
    m: &'a TModule,
) -> Result<(), ElabFault>
    ensures { Walks (module_walk all_leaf) known.old (m.now ∷ []) result known.new }
{
    let leaf = is_leaf(all_leaf, m);
    check_name(leaf, known, m)?;
    let ports = ports(alloc, leaf, m)?;
    enter(leaf, known, m, ports)
}

/// Looks at the name of a module, which another one may have only where both are leaves.
fn check_name(leaf: bool, known: &Known<'_>, m: &TModule) -> Result<(), ElabFault>
    ensures { Checks (name_check leaf known.now m.now ∷ []) result }
{
    let Some(there) = known.interfaces.get(&m.name.name) else {
        return Ok(());
    };
    if there.leaf && leaf {
        Ok(())
    } else {
        Err(fault(ElabKind::NameTaken, &m.name))
    }
}

/// Adds a module with these ports where its name isn't there; else it is a leaf again, which is to have the same ports.
fn enter<'a>(
    leaf: bool,
    known: &mut Known<'a>,
    m: &'a TModule,
    ports: Names<'a, Port>,
) -> Result<(), ElabFault>
    ensures checks { Checks (entry_checks known.old ports.entry m.now) result }
    ensures after { OnOk result (known.new ≡ with_module leaf known.old m.now ports.entry) }
{
    if let Some(there) = known.interfaces.get(&m.name.name) {
        if same_ports(&there.ports, &ports) {
            return Ok(());
        }
        return Err(fault(ElabKind::NameTaken, &m.name));
    }
    if known.next_module == u32::MAX {
        return Err(fault(ElabKind::TooManyModules, &m.name));
    }
    let interface = Interface {
        id: ModId(known.next_module),
        leaf,
        ports,
    };
    known.interfaces.push(&m.name.name, interface)?;
    known.next_module += 1;
    Ok(())
}

fn is_leaf(all_leaf: bool, m: &TModule) -> bool
    ensures { result ≡ is_leaf all_leaf m.now }
{
    all_leaf || m.marked
}
