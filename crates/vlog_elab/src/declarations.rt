//! The first round: headers and declarations.
ghost use Rattle.std.specs.Prelude.{◌≡◌, [], ◌∷◌, nat_lt, None, map, MatchResult};
ghost use Rattle.std.specs.List.{flat_map};
ghost use Rattle.emh_base.specs.declared.plain.Range.{Range};
ghost use Rattle.vlog_read.specs.declared.tree.Decl.{Decl};
ghost use Rattle.vlog_elab.specs.declared.said.Said.{Said};
ghost use Rattle.flatten_rules.specs.Check.{first_broken};
ghost use Rattle.vlog_elab.specs.Text.{header_names, header_decls, range_of};
ghost use Rattle.vlog_elab.specs.Interfaces.{Directed, Wired, Placed, range_places, name_place, decl_places, item_places, places, said, ports};
ghost use Rattle.vlog_elab.specs.Declarations.{inside_checks};
ghost use Rattle.vlog_elab.specs.inside.Walk.{Walks, Gives, Found};
ghost use Rattle.vlog_elab.specs.inside.Walks.{header_walk, place_walk, port_walk};

use crate::fault::{ElabFault, ElabKind, fault, fault_at};
use crate::interface::Port;
use crate::names::Names;
use crate::said::Said;
use crate::same::same_range;
use emh_base::Range;
use std::alloc::Global;
use vlog_read::{At, Decl, Header, Item, Span, TModule};

/// The names of a header, which are to differ.
pub fn header_of<'a>(alloc: Global, header: &'a Header) -> Result<Names<'a, ()>, ElabFault>
    ensures { Gives header_walk [] (header_names header.now) result }
{
    let mut names = Names::new(alloc);
    match header {
        Header::Names(tokens) => add_names(&mut names, tokens.as_slice())?,
        Header::Decls(decls) => add_decls(&mut names, decls.as_slice())?,
    }
    Ok(names)
}

fn add_decls<'a>(header: &mut Names<'a, ()>, decls: &'a [Decl]) -> Result<(), ElabFault>
    ensures { Walks header_walk header.old (flat_map
        (λ (d : Decl). d.names) decls.now) result header.new }
{
    for decl in decls {
        add_names(header, decl.names.as_slice())?;
    }
    Ok(())
}

fn add_names<'a>(header: &mut Names<'a, ()>, names: &'a [At]) -> Result<(), ElabFault>
    ensures { Walks header_walk header.old names.now result header.new }
{
    for name in names {
        add_name(header, name)?;
    }
    Ok(())
}

fn add_name<'a>(header: &mut Names<'a, ()>, name: &'a At) -> Result<(), ElabFault>
    ensures { Walks header_walk header.old (name.now ∷ []) result header.new }
{
    if header.push_new(&name.name, ())? {
        return Ok(());
    }
    Err(fault(ElabKind::PortTwice, name))
}

/// What the declarations of a module say, whose header has these names.
pub fn said_of<'a>(
    alloc: Global,
    leaf: bool,
    names: &Names<'a, ()>,
    m: &'a TModule,
) -> Result<Said<'a>, ElabFault>
    ensures { Gives (place_walk leaf names.now) (said []) (places m.now) result }
{
    let mut said = Said::new(alloc);
    declare_module(leaf, names, &mut said, m)?;
    Ok(said)
}

fn declare_module<'a>(
    leaf: bool,
    names: &Names<'a, ()>,
    said: &mut Said<'a>,
    m: &'a TModule,
) -> Result<(), ElabFault>
    ensures { Walks (place_walk leaf names.now) said.old (places m.now) result said.new }
{
    declare_header(leaf, names, said, &m.header)?;
    declare_items(leaf, names, said, m.items.as_slice())
}

fn declare_header<'a>(
    leaf: bool,
    names: &Names<'a, ()>,
    said: &mut Said<'a>,
    header: &'a Header,
) -> Result<(), ElabFault>
    ensures { Walks (place_walk leaf names.now) said.old
        (flat_map decl_places (header_decls header.now)) result said.new }
{
    match header {
        Header::Names(_) => Ok(()),
        Header::Decls(decls) => declare_decls(leaf, names, said, decls.as_slice()),
    }
}

fn declare_decls<'a>(
    leaf: bool,
    header: &Names<'a, ()>,
    said: &mut Said<'a>,
    decls: &'a [Decl],
) -> Result<(), ElabFault>
    ensures { Walks (place_walk leaf header.now) said.old (flat_map decl_places decls.now) result said.new }
{
    for decl in decls {
        declare(leaf, header, said, decl)?;
    }
    Ok(())
}

fn declare_items<'a>(
    leaf: bool,
    header: &Names<'a, ()>,
    said: &mut Said<'a>,
    items: &'a [Item],
) -> Result<(), ElabFault>
    ensures { Walks (place_walk leaf header.now) said.old (flat_map item_places items.now) result said.new }
{
    for item in items {
        declare_item(leaf, header, said, item)?;
    }
    Ok(())
}

fn declare_item<'a>(
    leaf: bool,
    header: &Names<'a, ()>,
    said: &mut Said<'a>,
    item: &'a Item,
) -> Result<(), ElabFault>
    ensures { Walks (place_walk leaf header.now) said.old (item_places item.now) result said.new }
{
    match item {
        Item::Decl(decl) => declare(leaf, header, said, decl),
        Item::Insts(master, _) => {
            if leaf {
                return Err(fault(ElabKind::LeafBody, master));
            }
            Ok(())
        }
    }
}

/// Takes a declaration: its range, and then its names from the left.
fn declare<'a>(
    leaf: bool,
    header: &Names<'a, ()>,
    said: &mut Said<'a>,
    decl: &'a Decl,
) -> Result<(), ElabFault>
    ensures { Walks (place_walk leaf header.now) said.old (decl_places decl.now) result said.new }
{
    check_range(leaf, header, said, decl)?;
    declare_names(leaf, header, said, decl, decl.names.as_slice())
}

fn declare_names<'a>(
    leaf: bool,
    header: &Names<'a, ()>,
    said: &mut Said<'a>,
    decl: &Decl,
    names: &'a [At],
) -> Result<(), ElabFault>
    ensures { Walks (place_walk leaf header.now) said.old
        (map (name_place decl.now.dir (range_of decl.now)) names.now) result said.new }
{
    for name in names {
        declare_name(leaf, header, said, decl, name)?;
    }
    Ok(())
}

/// Looks at the range of a declaration, which is told by the first name that is declared.
fn check_range<'a>(
    leaf: bool,
    header: &Names<'a, ()>,
    said: &Said<'a>,
    decl: &Decl,
) -> Result<(), ElabFault>
    ensures { Walks (place_walk leaf header.now) said.now (range_places decl.now.range decl.now.names) result said.now }
{
    let Some(span) = decl.range else {
        return Ok(());
    };
    let Some(name) = decl.names.get(0) else {
        return Ok(());
    };
    if span.range.left > 65535 {
        return Err(fault_at(ElabKind::BadIndex, span.at, &name.name));
    }
    if span.range.right > 65535 {
        return Err(fault_at(ElabKind::BadIndex, span.at, &name.name));
    }
    if span.range.left.abs_diff(span.range.right) >= 4096 {
        return Err(fault_at(ElabKind::TooWide, span.at, &name.name));
    }
    Ok(())
}

fn declare_name<'a>(
    leaf: bool,
    header: &Names<'a, ()>,
    said: &mut Said<'a>,
    decl: &Decl,
    name: &'a At,
) -> Result<(), ElabFault>
    ensures { Walks (place_walk leaf header.now) said.old
        (name_place decl.now.dir (range_of decl.now) name.now ∷ []) result said.new }
{
    let range = match decl.range {
        Some(span) => Some(span.range),
        None => None,
    };
    match decl.dir {
        Some(dir) => direct(leaf, header, said, name, Port { dir, range }),
        None => wire(leaf, header, said, name, range),
    }
}

/// Takes the direction of a name.
fn direct<'a>(
    leaf: bool,
    header: &Names<'a, ()>,
    said: &mut Said<'a>,
    name: &'a At,
    port: Port,
) -> Result<(), ElabFault>
    ensures { Walks (place_walk leaf header.now) said.old (Directed name.now port
        ∷ []) result said.new }
{
    if !header.contains(&name.name) {
        return Err(fault(ElabKind::UnknownPort, name));
    }
    if !said.directions.push_new(&name.name, port)? {
        return Err(fault(ElabKind::NameTaken, name));
    }
    if let Some(range) = said.wires.get(&name.name) {
        if !same_range(*range, port.range) {
            return Err(fault(ElabKind::RangeDiffers, name));
        }
    }
    Ok(())
}

/// Takes the wire declaration of a name.
fn wire<'a>(
    leaf: bool,
    header: &Names<'a, ()>,
    said: &mut Said<'a>,
    name: &'a At,
    range: Option<Range>,
) -> Result<(), ElabFault>
    ensures { Walks (place_walk leaf header.now) said.old (Wired name.now range
        ∷ []) result said.new }
{
    if !said.wires.push_new(&name.name, range)? {
        return Err(fault(ElabKind::NameTaken, name));
    }
    if let Some(port) = said.directions.get(&name.name) {
        if !same_range(port.range, range) {
            return Err(fault(ElabKind::RangeDiffers, name));
        }
    }
    if leaf && !header.contains(&name.name) {
        return Err(fault(ElabKind::LeafBody, name));
    }
    Ok(())
}
