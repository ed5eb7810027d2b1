//! Why a line that reads a netlist is refused, in print.
ghost use Rattle.std.specs.Prelude.{◌≡◌, IfOk};
ghost use Rattle.emh_shell.specs.Printing.{refused_line, module_object};
ghost use Rattle.edit_rules.specs.Opening.{open_code};
ghost use Rattle.emh_shell.specs.Faults.{lex_object, parse_object, elab_object, elab_fault_code, read_code, read_object, file_code, file_object, design_code, design_object};

use crate::fault::{DesignFault, FileFault};
use crate::printing::{module_object, place_object, refused_line, text_object, word_object};
use edit_rules::OpenFault;
use emh_base::{List, Name, NoMemory, push_spelled};
use std::alloc::Global;
use vlog_elab::{ElabFault, ReadFault};
use vlog_lex::LexFault;
use vlog_read::ParseFault;

impl DesignFault {
    /// The line that is printed of it, for a line of that number with that file and that top.
    pub fn line(
        &self,
        alloc: Global,
        number: u32,
        file: &[u8],
        top: &Name,
    ) -> Result<List<u8>, NoMemory>
        ensures { IfOk result (λ text. text
            ≡ refused_line number (design_code self.now) (design_object file.now top.now self.now)) }
    {
        match self {
            DesignFault::File(fault) => fault.line(alloc, number, file),
            DesignFault::Opening(fault) => opening_line(alloc, number, top, fault),
        }
    }
}

/// The line that is printed of a table that isn't opened at a top.
pub fn opening_line(
    alloc: Global,
    number: u32,
    top: &Name,
    fault: &OpenFault,
) -> Result<List<u8>, NoMemory>
    ensures { IfOk result (λ text. text
        ≡ refused_line number (open_code fault.now) (module_object top.now)) }
{
    let object = module_object(alloc, top)?;
    refused_line(alloc, number, fault.code(), object.as_slice())
}

impl FileFault {
    /// The line that is printed of it, for a line of that number with that file.
    pub fn line(&self, alloc: Global, number: u32, file: &[u8]) -> Result<List<u8>, NoMemory>
        ensures { IfOk result (λ text. text
            ≡ refused_line number (file_code self.now) (file_object file.now self.now)) }
    {
        match self {
            FileFault::TooLong => {
                let object = word_object(alloc, file)?;
                refused_line(alloc, number, 37, object.as_slice())
            }
            FileFault::Reading(fault) => {
                let object = read_object(alloc, fault)?;
                refused_line(alloc, number, read_code(fault), object.as_slice())
            }
        }
    }
}

fn read_code(fault: &ReadFault) -> u32
    ensures { result ≡ read_code fault.now }
{
    match fault {
        ReadFault::Lex(fault) => fault.code(),
        ReadFault::Parse(fault) => fault.code(),
        ReadFault::Elab(fault) => elab_code(fault),
    }
}

fn elab_code(fault: &ElabFault) -> u32
    ensures { result ≡ elab_fault_code fault.now }
{
    match fault {
        ElabFault::Fault { kind, .. } => kind.code(),
        ElabFault::NoMemory => 0,
    }
}

fn read_object(alloc: Global, fault: &ReadFault) -> Result<List<u8>, NoMemory>
    ensures { IfOk result (λ text. text ≡ read_object fault.now) }
{
    match fault {
        ReadFault::Lex(fault) => lex_object(alloc, *fault),
        ReadFault::Parse(fault) => parse_object(alloc, fault),
        ReadFault::Elab(fault) => elab_object(alloc, fault),
    }
}

fn lex_object(alloc: Global, fault: LexFault) -> Result<List<u8>, NoMemory>
    ensures { IfOk result (λ text. text ≡ lex_object fault) }
{
    match fault {
        LexFault::BadByte { at } => place_object(alloc, at),
        LexFault::OpenComment { at } => place_object(alloc, at),
        LexFault::OpenAttribute { at } => place_object(alloc, at),
        LexFault::BadLiteral { at } => place_object(alloc, at),
        LexFault::LongName { at } => place_object(alloc, at),
        LexFault::Directive { at } => place_object(alloc, at),
        LexFault::NoMemory => Ok(List::new(alloc)),
    }
}

fn parse_object(alloc: Global, fault: &ParseFault) -> Result<List<u8>, NoMemory>
    ensures { IfOk result (λ text. text ≡ parse_object fault.now) }
{
    match fault {
        ParseFault::Unexpected { at } => place_object(alloc, *at),
        ParseFault::Unsupported { at, word } => text_object(alloc, *at, word.as_bytes()),
        ParseFault::NoMemory => Ok(List::new(alloc)),
    }
}

fn elab_object(alloc: Global, fault: &ElabFault) -> Result<List<u8>, NoMemory>
    ensures { IfOk result (λ text. text ≡ elab_object fault.now) }
{
    match fault {
        ElabFault::Fault { at, name, .. } => {
            let mut spelled = List::new(alloc);
            push_spelled(&mut spelled, name)?;
            text_object(alloc, *at, spelled.as_slice())
        }
        ElabFault::NoMemory => Ok(List::new(alloc)),
    }
}
