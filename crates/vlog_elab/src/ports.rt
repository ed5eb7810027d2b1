//! The ports of a module, each of which is to have a direction.
ghost use Rattle.std.specs.Prelude.{◌≡◌, [], ◌∷◌, None, MatchResult};
ghost use Rattle.std.specs.List.{flat_map};
ghost use Rattle.vlog_read.specs.declared.tree.Decl.{Decl};
ghost use Rattle.flatten_rules.specs.Check.{first_broken};
ghost use Rattle.vlog_elab.specs.Text.{header_names};
ghost use Rattle.vlog_elab.specs.Interfaces.{ports};
ghost use Rattle.vlog_elab.specs.Declarations.{inside_checks};
ghost use Rattle.vlog_elab.specs.inside.Walk.{Walks, Gives, Found};
ghost use Rattle.vlog_elab.specs.inside.Walks.{port_walk};

use crate::declarations::{header_of, said_of};
use crate::fault::{ElabFault, ElabKind, fault};
use crate::interface::Port;
use crate::names::Names;
use std::alloc::Global;
use vlog_read::{At, Decl, Header, TModule};

/// The ports of a module, whose header and declarations are to be as they should.
pub fn ports<'a>(alloc: Global, leaf: bool, m: &'a TModule) -> Result<Names<'a, Port>, ElabFault>
    ensures { MatchResult result (λ made. (first_broken (inside_checks leaf m.now) ≡ None) × (made ≡ ports m.now))
        (Found (first_broken (inside_checks leaf m.now))) }
{
    let names = header_of(alloc, &m.header)?;
    let said = said_of(alloc, leaf, &names, m)?;
    ports_of(alloc, &said.directions, &m.header)
}

/// The ports of a header, of which these are the directions.
fn ports_of<'a>(
    alloc: Global,
    directions: &Names<'a, Port>,
    header: &'a Header,
) -> Result<Names<'a, Port>, ElabFault>
    ensures { Gives (port_walk directions.now) [] (header_names header.now) result }
{
    let mut ports = Names::new(alloc);
    match header {
        Header::Names(names) => add_ports(directions, &mut ports, names.as_slice())?,
        Header::Decls(decls) => add_decls(directions, &mut ports, decls.as_slice())?,
    }
    Ok(ports)
}

fn add_decls<'a>(
    directions: &Names<'a, Port>,
    ports: &mut Names<'a, Port>,
    decls: &'a [Decl],
) -> Result<(), ElabFault>
    ensures { Walks (port_walk directions.now) ports.old (flat_map (λ (d : Decl). d.names) decls.now) result ports.new }
{
    for decl in decls {
        add_ports(directions, ports, decl.names.as_slice())?;
    }
    Ok(())
}

fn add_ports<'a>(
    directions: &Names<'a, Port>,
    ports: &mut Names<'a, Port>,
    names: &'a [At],
) -> Result<(), ElabFault>
    ensures { Walks (port_walk directions.now) ports.old names.now result ports.new }
{
    for name in names {
        add_port(directions, ports, name)?;
    }
    Ok(())
}

fn add_port<'a>(
    directions: &Names<'a, Port>,
    ports: &mut Names<'a, Port>,
    name: &'a At,
) -> Result<(), ElabFault>
    ensures { Walks (port_walk directions.now) ports.old (name.now ∷ []) result ports.new }
{
    let Some(port) = directions.get(&name.name) else {
        return Err(fault(ElabKind::NoDirection, name));
    };
    ports.push(&name.name, *port)?;
    Ok(())
}
