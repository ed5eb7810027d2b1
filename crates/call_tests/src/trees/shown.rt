//! A tree or a fault as a line of text: a place stands behind an `@`.
use emh_base::{Dir, FILE_LIMIT, List, NoMemory, Range, push_number};
use std::alloc::Global;
use std::test::Fail;
use vlog_lex::{Tokens, tokens};
use vlog_read::{At, Decl, Header, Item, ParseFault, Part, TConn, TInst, TModule, Tree, parse};

/// What is read from bytes that have tokens.
pub fn shown(alloc: Global, bytes: &[u8]) -> Result<List<u8>, Fail> {
    let read = tokens(alloc, &bytes[..bytes.len().min(FILE_LIMIT)])?;
    Ok(shown_tokens(alloc, &read)?)
}

/// What is read from tokens.
pub fn shown_tokens(alloc: Global, read: &Tokens<'_>) -> Result<List<u8>, NoMemory> {
    let mut out = List::new(alloc);
    match parse(alloc, read) {
        Ok(tree) => show_tree(&mut out, &tree)?,
        Err(ParseFault::Unexpected { at }) => show_fault(&mut out, b"unexpected ", at)?,
        Err(ParseFault::Unsupported { at, word }) => {
            out.extend(b"unsupported ")?;
            show_fault(&mut out, word.as_bytes(), at)?;
        }
        Err(ParseFault::NoMemory) => return Err(NoMemory),
    }
    Ok(out)
}

fn show_fault(out: &mut List<u8>, text: &[u8], at: u32) -> Result<(), NoMemory> {
    out.extend(text)?;
    show_place(out, at)
}

fn show_place(out: &mut List<u8>, at: u32) -> Result<(), NoMemory> {
    out.extend(b"@")?;
    push_number(out, u64::from(at))
}

/// As `t@7 names a@9 { wire b@18; }`, one behind the other.
fn show_tree(out: &mut List<u8>, tree: &Tree) -> Result<(), NoMemory> {
    for one in tree.modules.as_slice() {
        if !out.is_empty() {
            out.extend(b" ")?;
        }
        show_module(out, one)?;
    }
    Ok(())
}

fn show_module(out: &mut List<u8>, one: &TModule) -> Result<(), NoMemory> {
    if one.marked {
        out.extend(b"marked ")?;
    }
    show_at(out, &one.name)?;
    show_header(out, &one.header)?;
    out.extend(b" {")?;
    for item in one.items.as_slice() {
        show_item(out, item)?;
    }
    out.extend(b" }")
}

fn show_at(out: &mut List<u8>, name: &At) -> Result<(), NoMemory> {
    out.extend(name.name.as_bytes())?;
    show_place(out, name.at)
}

fn show_names(out: &mut List<u8>, names: &[At]) -> Result<(), NoMemory> {
    for name in names {
        out.extend(b" ")?;
        show_at(out, name)?;
    }
    Ok(())
}

fn show_header(out: &mut List<u8>, header: &Header) -> Result<(), NoMemory> {
    match header {
        Header::Names(names) => {
            out.extend(b" names")?;
            show_names(out, names.as_slice())
        }
        Header::Decls(decls) => {
            out.extend(b" decls")?;
            for decl in decls.as_slice() {
                show_decl(out, decl)?;
            }
            Ok(())
        }
    }
}

/// As ` input wire [3:0]@14 a@19 b@22`.
fn show_decl(out: &mut List<u8>, decl: &Decl) -> Result<(), NoMemory> {
    out.extend(dir_text(decl.dir))?;
    if decl.wire {
        out.extend(b" wire")?;
    }
    if let Some(span) = decl.range {
        out.extend(b" ")?;
        show_range(out, span.range)?;
        show_place(out, span.at)?;
    }
    show_names(out, decl.names.as_slice())
}

fn dir_text(dir: Option<Dir>) -> &'static [u8] {
    match dir {
        Some(Dir::Input) => b" input",
        Some(Dir::Output) => b" output",
        Some(Dir::Inout) => b" inout",
        None => b"",
    }
}

fn show_range(out: &mut List<u8>, range: Range) -> Result<(), NoMemory> {
    out.extend(b"[")?;
    push_number(out, u64::from(range.left))?;
    out.extend(b":")?;
    push_number(out, u64::from(range.right))?;
    out.extend(b"]")
}

fn show_item(out: &mut List<u8>, item: &Item) -> Result<(), NoMemory> {
    match item {
        Item::Decl(decl) => show_decl(out, decl)?,
        Item::Insts(master, insts) => {
            out.extend(b" ")?;
            show_at(out, master)?;
            for inst in insts.as_slice() {
                show_inst(out, inst)?;
            }
        }
    }
    out.extend(b";")
}

fn show_inst(out: &mut List<u8>, inst: &TInst) -> Result<(), NoMemory> {
    out.extend(b" ")?;
    show_at(out, &inst.name)?;
    out.extend(b"(")?;
    for conn in inst.conns.as_slice() {
        show_conn(out, conn)?;
    }
    out.extend(b")")
}

/// As `<@20 .p@21 @23: a@23>`, by order without a port.
fn show_conn(out: &mut List<u8>, conn: &TConn) -> Result<(), NoMemory> {
    out.extend(b"<")?;
    show_place(out, conn.at)?;
    if let Some(port) = &conn.port {
        out.extend(b" .")?;
        show_at(out, port)?;
    }
    out.extend(b" ")?;
    show_place(out, conn.expr_at)?;
    out.extend(b":")?;
    for part in conn.parts.as_slice() {
        out.extend(b" ")?;
        show_part(out, part)?;
    }
    out.extend(b">")
}

fn show_part(out: &mut List<u8>, part: &Part) -> Result<(), NoMemory> {
    match part {
        Part::Name(name) => show_at(out, name),
        Part::Bit(name, index) => {
            show_at(out, name)?;
            out.extend(b"[")?;
            push_number(out, u64::from(*index))?;
            out.extend(b"]")
        }
        Part::Bits(name, range) => {
            show_at(out, name)?;
            show_range(out, *range)
        }
        Part::Lit { size, value } => {
            push_number(out, u64::from(*size))?;
            out.extend(b"'d")?;
            let value = value.to_string(out.alloc())?;
            out.extend(value.as_bytes())
        }
    }
}
