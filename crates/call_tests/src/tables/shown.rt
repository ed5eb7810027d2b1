//! A table or a fault as a line of text.
use emh_base::{Conn, Dir, FILE_LIMIT, List, PInst, PModule, PNet, Plain, Range, Src};
use flatten_rules::is_sound;
use std::alloc::Global;
use std::fmt::Write;
use std::str::from_utf8;
use std::test::Fail;
use vlog_elab::{ElabFault, elab};
use vlog_lex::tokens;
use vlog_read::parse;

/// A table without modules, whose next module gets this id.
pub fn empty_table(alloc: Global, next_module: u32) -> Plain {
    Plain {
        modules: List::new(alloc),
        next_module,
    }
}

/// What a text gives over the leaf cells of another one: the modules after the cells, or the fault.
pub fn shown(alloc: Global, cells: &[u8], text: &[u8]) -> Result<String, Fail> {
    let none = empty_table(alloc, 0);
    let library = match read(alloc, &none, cells, true)? {
        Ok(library) => library,
        Err(fault) => return shown_fault(alloc, &fault),
    };
    shown_over(alloc, &library, text, false)
}

/// What a text gives over a table.
pub fn shown_over(
    alloc: Global,
    table: &Plain,
    text: &[u8],
    all_leaf: bool,
) -> Result<String, Fail> {
    match read(alloc, table, text, all_leaf)? {
        Ok(made) => shown_table(alloc, &made, table.modules.len()),
        Err(fault) => shown_fault(alloc, &fault),
    }
}

/// What a text gives over a sound table.
pub fn read(
    alloc: Global,
    table: &Plain,
    text: &[u8],
    all_leaf: bool,
) -> Result<Result<Plain, ElabFault>, Fail> {
    let read = tokens(alloc, &text[..text.len().min(FILE_LIMIT)])?;
    let tree = parse(alloc, &read)?;
    is_sound(alloc, table)?
        .then_some(())
        .ok_or("no sound table")?;
    Ok(elab(alloc, table, &tree, all_leaf))
}

fn shown_fault(alloc: Global, fault: &ElabFault) -> Result<String, Fail> {
    match fault {
        ElabFault::Fault { kind, at, name } => {
            Ok(format!(in alloc; "{kind:?} @{at} {}", from_utf8(name.as_bytes())?)?)
        }
        ElabFault::NoMemory => Ok(format!(in alloc; "no memory")?),
    }
}

/// The modules from one on, and the counter where it isn't their number.
fn shown_table(alloc: Global, table: &Plain, from: usize) -> Result<String, Fail> {
    let mut text = String::new(alloc);
    for (place, holder) in table.modules.as_slice().iter().enumerate() {
        if place >= from {
            show_module(&mut text, holder)?;
        }
    }
    if table.next_module as usize != table.modules.len() {
        write!(text, " next {}", table.next_module)?;
    }
    Ok(text)
}

/// As `3 t (0 input, 1 output) [0 a, 1 y[3:0]] {0 u:2(0.0 =1, open)}`; modules after the first stand behind a space.
fn show_module(text: &mut String, holder: &PModule) -> Result<(), Fail> {
    if !text.is_empty() {
        write!(text, " ")?;
    }
    write!(
        text,
        "{} {}",
        holder.id.0,
        from_utf8(holder.name.as_bytes())?
    )?;
    if holder.leaf {
        write!(text, " leaf")?;
    }
    show_ports(text, holder)?;
    write!(text, " [")?;
    for (place, net) in holder.nets.as_slice().iter().enumerate() {
        show_net(text, place, net)?;
    }
    write!(text, "] {{")?;
    for (place, inst) in holder.insts.as_slice().iter().enumerate() {
        show_inst(text, place, inst)?;
    }
    write!(text, "}}")?;
    if holder.next_net as usize != holder.nets.len() {
        write!(text, " next net {}", holder.next_net)?;
    }
    if holder.next_inst as usize != holder.insts.len() {
        write!(text, " next inst {}", holder.next_inst)?;
    }
    Ok(())
}

fn show_comma(text: &mut String, place: usize) -> Result<(), Fail> {
    if place > 0 {
        write!(text, ", ")?;
    }
    Ok(())
}

fn show_ports(text: &mut String, holder: &PModule) -> Result<(), Fail> {
    write!(text, " (")?;
    for (place, port) in holder.ports.as_slice().iter().enumerate() {
        show_comma(text, place)?;
        let dir = match port.dir {
            Dir::Input => "input",
            Dir::Output => "output",
            Dir::Inout => "inout",
        };
        write!(text, "{} {dir}", port.net.0)?;
    }
    write!(text, ")")?;
    Ok(())
}

fn show_net(text: &mut String, place: usize, net: &PNet) -> Result<(), Fail> {
    show_comma(text, place)?;
    write!(text, "{} {}", net.id.0, from_utf8(net.name.as_bytes())?)?;
    if let Some(Range { left, right }) = net.range {
        write!(text, "[{left}:{right}]")?;
    }
    Ok(())
}

fn show_inst(text: &mut String, place: usize, inst: &PInst) -> Result<(), Fail> {
    show_comma(text, place)?;
    write!(
        text,
        "{} {}:{}(",
        inst.id.0,
        from_utf8(inst.name.as_bytes())?,
        inst.master.0
    )?;
    for (port, conn) in inst.conns.as_slice().iter().enumerate() {
        show_comma(text, port)?;
        show_conn(text, conn)?;
    }
    write!(text, ")")?;
    Ok(())
}

fn show_conn(text: &mut String, conn: &Conn) -> Result<(), Fail> {
    let bits = match conn {
        Conn::Open => {
            write!(text, "open")?;
            return Ok(());
        }
        Conn::Bits(bits) => bits,
    };
    for (offset, bit) in bits.as_slice().iter().enumerate() {
        if offset > 0 {
            write!(text, " ")?;
        }
        match bit {
            Src::Tie0 => write!(text, "=0")?,
            Src::Tie1 => write!(text, "=1")?,
            Src::Bit(net, place) => write!(text, "{}.{place}", net.0)?,
        }
    }
    Ok(())
}
