//! The second round: nets, instances and connections.
ghost use Rattle.std.specs.Prelude.{◌≡◌, [], ◌∷◌, ◌++◌, map, length, None, Some, IfOk, OnOk};
ghost use Rattle.std.specs.List.{flat_map};
ghost use Rattle.std.specs.Option.{option_copied};
ghost use Rattle.vlog_read.specs.declared.tree.At.{At};
ghost use Rattle.vlog_elab.specs.declared.interface.Interface.{Interface};
ghost use Rattle.vlog_elab.specs.declared.scope.Scope.{Scope};
ghost use Rattle.flatten_rules.specs.Check.{each_after};
ghost use Rattle.vlog_elab.specs.Named.{named, place_of};
ghost use Rattle.vlog_elab.specs.Text.{header_decls, range_of};
ghost use Rattle.vlog_elab.specs.Steps.{Declares, Places, Connects, Uses, Fits, decl_steps, conn_steps, inst_steps, item_steps, steps};
ghost use Rattle.vlog_elab.specs.Connections.{is_implied, port_named, ports_named, port_place, mixes, conn_checks, inner_checks};
ghost use Rattle.vlog_elab.specs.Table.{nets};
ghost use Rattle.vlog_elab.specs.inside.Walk.{Walks, Checks};
ghost use Rattle.vlog_elab.specs.inside.Walks.{with_new, step_walk};

use crate::fault::{ElabFault, ElabKind, fault, fault_at};
use crate::interface::{Interface, Port};
use crate::names::Names;
use crate::scope::{Net, Scope, meet, net_range};
use crate::select::{fits, has_index, has_indices};
use emh_base::{Name, NoMemory, Range};
use std::alloc::Global;
use vlog_read::{At, Decl, Header, Item, Part, TConn, TInst, TModule};

/// Looks at the connections of a module, where all modules have these interfaces, and answers the module's nets.
pub fn check_module<'a>(
    alloc: Global,
    interfaces: &Names<'_, Interface<'_>>,
    m: &'a TModule,
) -> Result<Names<'a, Net>, ElabFault>
    ensures checks { Checks (inner_checks interfaces.now m.now) result }
    ensures nets { IfOk result (λ made. made ≡ nets m.now) }
{
    let mut scope = Scope::new(alloc);
    walk_module(alloc, interfaces, &mut scope, m)?;
    Ok(scope.nets)
}

fn walk_module<'a>(
    alloc: Global,
    interfaces: &Names<'_, Interface<'_>>,
    scope: &mut Scope<'a>,
    m: &'a TModule,
) -> Result<(), ElabFault>
    ensures { Walks step_walk scope.old (steps interfaces.now m.now) result scope.new }
{
    walk_header(scope, &m.header)?;
    walk_items(alloc, interfaces, scope, m.items.as_slice())
}

fn walk_header<'a>(scope: &mut Scope<'a>, header: &'a Header) -> Result<(), ElabFault>
    ensures { Walks step_walk scope.old (flat_map decl_steps (header_decls header.now)) result scope.new }
{
    match header {
        Header::Names(_) => Ok(()),
        Header::Decls(decls) => walk_decls(scope, decls.as_slice()),
    }
}

fn walk_decls<'a>(scope: &mut Scope<'a>, decls: &'a [Decl]) -> Result<(), ElabFault>
    ensures { Walks step_walk scope.old (flat_map decl_steps decls.now) result scope.new }
{
    for decl in decls {
        walk_decl(scope, decl)?;
    }
    Ok(())
}

fn walk_decl<'a>(scope: &mut Scope<'a>, decl: &'a Decl) -> Result<(), ElabFault>
    ensures { Walks step_walk scope.old (decl_steps decl.now) result scope.new }
{
    let range = match decl.range {
        Some(span) => Some(span.range),
        None => None,
    };
    declare_all(scope, decl.names.as_slice(), range)
}

fn declare_all<'a>(
    scope: &mut Scope<'a>,
    names: &'a [At],
    range: Option<Range>,
) -> Result<(), ElabFault>
    ensures { Walks step_walk scope.old (map
        (λ (n : At). Declares n range) names.now) result scope.new }
{
    for name in names {
        declare(scope, name, range)?;
    }
    Ok(())
}

fn walk_items<'a>(
    alloc: Global,
    interfaces: &Names<'_, Interface<'_>>,
    scope: &mut Scope<'a>,
    items: &'a [Item],
) -> Result<(), ElabFault>
    ensures { Walks step_walk scope.old (flat_map (item_steps interfaces.now) items.now) result scope.new }
{
    for item in items {
        walk_item(alloc, interfaces, scope, item)?;
    }
    Ok(())
}

fn walk_item<'a>(
    alloc: Global,
    interfaces: &Names<'_, Interface<'_>>,
    scope: &mut Scope<'a>,
    item: &'a Item,
) -> Result<(), ElabFault>
    ensures { Walks step_walk scope.old (item_steps interfaces.now item.now) result scope.new }
{
    match item {
        Item::Decl(decl) => walk_decl(scope, decl),
        Item::Insts(master, insts) => walk_insts(
            alloc,
            interfaces,
            master,
            scope,
            insts.as_slice(),
        ),
    }
}

fn walk_insts<'a>(
    alloc: Global,
    interfaces: &Names<'_, Interface<'_>>,
    master: &At,
    scope: &mut Scope<'a>,
    insts: &'a [TInst],
) -> Result<(), ElabFault>
    ensures { Walks step_walk scope.old
        (flat_map (inst_steps (named interfaces.now master.now.name) master.now) insts.now)
        result scope.new }
{
    for inst in insts {
        walk_inst(alloc, interfaces, master, scope, inst)?;
    }
    Ok(())
}

/// Takes an instance, whose master is to be there.
fn walk_inst<'a>(
    alloc: Global,
    interfaces: &Names<'_, Interface<'_>>,
    master: &At,
    scope: &mut Scope<'a>,
    inst: &'a TInst,
) -> Result<(), ElabFault>
    ensures { Walks step_walk scope.old
        (inst_steps (named interfaces.now master.now.name) master.now inst.now) result scope.new }
{
    let Some(interface) = interfaces.get(&master.name) else {
        return Err(fault(ElabKind::UnknownModule, master));
    };
    walk_inst_of(alloc, interface, master, scope, inst)
}

fn walk_inst_of<'a>(
    alloc: Global,
    interface: &Interface<'_>,
    master: &At,
    scope: &mut Scope<'a>,
    inst: &'a TInst,
) -> Result<(), ElabFault>
    ensures { Walks step_walk scope.old (inst_steps (Some interface.now) master.now inst.now) result scope.new }
{
    place(interface, master, scope, &inst.name)?;
    walk_conns(
        alloc,
        &interface.ports,
        scope,
        &inst.name,
        inst.conns.as_slice(),
    )
}

fn walk_conns<'a>(
    alloc: Global,
    ports: &Names<'_, Port>,
    scope: &mut Scope<'a>,
    inst: &At,
    conns: &'a [TConn],
) -> Result<(), ElabFault>
    ensures { Walks step_walk scope.old (each_after (conn_steps ports.now inst.now) [] conns.now) result scope.new }
{
    let mut seen = Names::new(alloc);
    for number in 0..conns.len() {
        let (before, _) = conns.split_at(number);
        walk_conn(ports, scope, &mut seen, inst, before, &conns[number])?;
    }
    Ok(())
}

/// Takes a connection: the port that it is to, the parts of its expression from the left, and its width.
fn walk_conn<'a>(
    ports: &Names<'_, Port>,
    scope: &mut Scope<'a>,
    seen: &mut Names<'a, ()>,
    inst: &At,
    before: &[TConn],
    conn: &'a TConn,
) -> Result<(), ElabFault>
    requires { seen.old ≡ ports_named before.now }
    ensures walk { Walks step_walk scope.old (conn_steps ports.now inst.now before.now conn.now) result scope.new }
    ensures seen { OnOk result (seen.new ≡ seen.old ++ port_named conn.now.port) }
{
    let place = connect(ports, seen, inst, before, conn)?;
    use_parts(scope, conn.parts.as_slice())?;
    fit(ports, scope, before, conn, place)
}

fn use_parts<'a>(scope: &mut Scope<'a>, parts: &'a [Part]) -> Result<(), ElabFault>
    ensures { Walks step_walk scope.old (map Uses parts.now) result scope.new }
{
    for part in parts {
        use_part(scope, part)?;
    }
    Ok(())
}

fn declare<'a>(scope: &mut Scope<'a>, name: &'a At, range: Option<Range>) -> Result<(), ElabFault>
    ensures { Walks step_walk scope.old (Declares name.now range ∷ []) result scope.new }
{
    let net = Net {
        range,
        implied: false,
    };
    if declares_late(&mut scope.nets, &name.name, net)? {
        return Err(fault(ElabKind::LateDeclaration, name));
    }
    if scope.insts.contains(&name.name) {
        return Err(fault(ElabKind::NameTaken, name));
    }
    Ok(())
}

/// Puts a net last where none of its name is there, and answers whether a connection has made one before.
fn declares_late<'a>(nets: &mut Names<'a, Net>, name: &'a Name, net: Net) -> Result<bool, NoMemory>
    ensures late { IfOk result (λ late. late ≡ is_implied (named nets.old name.now)) }
    ensures after { OnOk result (nets.new ≡ with_new nets.old ((name.now, net) ∷ [])) }
{
    if nets.push_new(name, net)? {
        return Ok(false);
    }
    match nets.get(name) {
        Some(there) => Ok(there.implied),
        None => Ok(false),
    }
}

/// Takes an instance of a module.
fn place<'a>(
    interface: &Interface<'_>,
    master: &At,
    scope: &mut Scope<'a>,
    name: &'a At,
) -> Result<(), ElabFault>
    ensures { Walks step_walk scope.old (Places (Some interface.now) master.now name.now
        ∷ []) result scope.new }
{
    if scope.nets.contains(&name.name) {
        return Err(fault(ElabKind::NameTaken, name));
    }
    if scope.insts.push_new(&name.name, ())? {
        return Ok(());
    }
    Err(fault(ElabKind::NameTaken, name))
}

/// Looks at the port that a connection is to, and answers its place; `seen` has the ports that were named before.
fn connect<'a>(
    ports: &Names<'_, Port>,
    seen: &mut Names<'a, ()>,
    inst: &At,
    before: &[TConn],
    conn: &'a TConn,
) -> Result<usize, ElabFault>
    requires { seen.old ≡ ports_named before.now }
    ensures checks { Checks (conn_checks ports.now inst.now before.now conn.now conn.now.port) result }
    ensures place { IfOk result (λ place. port_place ports.now before.now conn.now.port
        ≡ Some place) }
    ensures seen { OnOk result (seen.new ≡ seen.old ++ port_named conn.now.port) }
{
    match &conn.port {
        None => by_order(ports, seen, inst, before, conn),
        Some(name) => by_name(ports, seen, inst, before, conn, name),
    }
}

/// Whether a connection by order stands after one by name, or the reverse; `seen` has the ports that were named before.
fn mixes(seen: &Names<'_, ()>, before: &[TConn], by_name: bool) -> bool
    requires { seen.now ≡ ports_named before.now }
    ensures { result ≡ mixes before.now by_name }
{
    if by_name {
        seen.len() != before.len()
    } else {
        seen.len() != 0
    }
}

fn by_order(
    ports: &Names<'_, Port>,
    seen: &Names<'_, ()>,
    inst: &At,
    before: &[TConn],
    conn: &TConn,
) -> Result<usize, ElabFault>
    requires { seen.now ≡ ports_named before.now }
    ensures checks { Checks (conn_checks ports.now inst.now before.now conn.now None) result }
    ensures place { IfOk result (λ place. place ≡ length before.now) }
{
    if mixes(seen, before, false) {
        return Err(fault_at(ElabKind::Mixed, conn.at, &inst.name));
    }
    if ports.len() <= before.len() {
        return Err(fault_at(ElabKind::TooManyConnections, conn.at, &inst.name));
    }
    Ok(before.len())
}

fn by_name<'a>(
    ports: &Names<'_, Port>,
    seen: &mut Names<'a, ()>,
    inst: &At,
    before: &[TConn],
    conn: &TConn,
    name: &'a At,
) -> Result<usize, ElabFault>
    requires { seen.old ≡ ports_named before.now }
    ensures checks { Checks (conn_checks ports.now inst.now before.now conn.now (Some name.now)) result }
    ensures place { IfOk result (λ place. place_of ports.now name.now.name ≡ Some place) }
    ensures seen { OnOk result (seen.new ≡ seen.old ++ (name.now.name, tt) ∷ []) }
{
    if mixes(seen, before, true) {
        return Err(fault_at(ElabKind::Mixed, conn.at, &inst.name));
    }
    let Some(place) = ports.find(&name.name) else {
        return Err(fault(ElabKind::UnknownPort, name));
    };
    if seen.push_new(&name.name, ())? {
        return Ok(place);
    }
    Err(fault(ElabKind::PortTwice, name))
}

/// Takes a part of an expression.
fn use_part<'a>(scope: &mut Scope<'a>, part: &'a Part) -> Result<(), ElabFault>
    ensures { Walks step_walk scope.old (Uses part.now ∷ []) result scope.new }
{
    match part {
        Part::Name(name) => {
            if scope.insts.contains(&name.name) {
                return Err(fault(ElabKind::NameTaken, name));
            }
            let net = Net {
                range: None,
                implied: true,
            };
            meet(&mut scope.nets, &name.name, net)?;
            Ok(())
        }
        Part::Bit(name, index) => {
            if scope.insts.contains(&name.name) {
                return Err(fault(ElabKind::NameTaken, name));
            }
            if !has_index(net_range(&scope.nets, &name.name), *index) {
                return Err(fault(ElabKind::BadIndex, name));
            }
            Ok(())
        }
        Part::Bits(name, range) => {
            if scope.insts.contains(&name.name) {
                return Err(fault(ElabKind::NameTaken, name));
            }
            if !has_indices(net_range(&scope.nets, &name.name), *range) {
                return Err(fault(ElabKind::BadIndex, name));
            }
            Ok(())
        }
        Part::Lit { .. } => Ok(()),
    }
}

/// Looks at the width of an expression, which isn't empty, where the port at that place is connected.
fn fit(
    ports: &Names<'_, Port>,
    scope: &Scope<'_>,
    before: &[TConn],
    conn: &TConn,
    place: usize,
) -> Result<(), ElabFault>
    requires { port_place ports.now before.now conn.now.port ≡ Some place }
    ensures { Walks step_walk scope.now (Fits ports.now before.now conn.now ∷ []) result scope.now }
{
    if conn.parts.is_empty() {
        return Ok(());
    }
    let (Some(name), Some(port)) = (ports.name(place), ports.at(place)) else {
        return Ok(());
    };
    if fits(&scope.nets, conn.parts.as_slice(), port.range) {
        return Ok(());
    }
    Err(fault_at(ElabKind::WidthMismatch, conn.expr_at, name))
}
