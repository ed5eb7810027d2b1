ghost use Rattle.std.specs.Prelude.{◌≡◌, IfOk};
ghost use Rattle.word_table.specs.Texts.{texts};
ghost use Rattle.script_read.specs.Form.{bits_of};
ghost use Rattle.script_read.specs.Table.{create_inst_form, delete_inst_form, connect_form, disconnect_form, rename_inst_form, resize_form, uniquify_form, pin_form, form_in, inst_rows};

use crate::command::{BitWord, Command};
use crate::spots::read_spots;
use crate::word::{bit_of, name_of};
use emh_base::{List, Name, NoMemory};
use std::alloc::Global;

/// What a line asks for, by its first word and those behind it, where its row stands among those
/// of edits of instances or further on.
pub fn read_insts(alloc: Global, first: &[u8], words: &[&[u8]]) -> Result<Option<Command>, NoMemory>
    ensures { IfOk result (λ command. command ≡ form_in inst_rows first.now (texts words.now)) }
{
    if first == b"create_inst".as_slice() {
        read_create_inst(alloc, words)
    } else if first == b"delete_inst".as_slice() {
        read_delete_inst(alloc, words)
    } else if first == b"connect".as_slice() {
        read_connect(alloc, words)
    } else if first == b"disconnect".as_slice() {
        read_disconnect(alloc, words)
    } else if first == b"rename_inst".as_slice() {
        read_rename_inst(alloc, words)
    } else if first == b"resize".as_slice() {
        read_resize(alloc, words)
    } else if first == b"uniquify".as_slice() {
        read_uniquify(alloc, words)
    } else {
        read_spots(alloc, first, words)
    }
}

/// `create_inst MODULE NAME MASTER`, behind its first word.
fn read_create_inst(alloc: Global, words: &[&[u8]]) -> Result<Option<Command>, NoMemory>
    ensures { IfOk result (λ command. command ≡ create_inst_form (texts words.now)) }
{
    match words {
        [module, name, master] => {
            let Some(module) = name_of(alloc, module)? else {
                return Ok(None);
            };
            let Some(name) = name_of(alloc, name)? else {
                return Ok(None);
            };
            let Some(master) = name_of(alloc, master)? else {
                return Ok(None);
            };
            Ok(Some(Command::CreateInst {
                module,
                name,
                master,
            }))
        }
        _ => Ok(None),
    }
}

/// `delete_inst MODULE INST`, behind its first word.
fn read_delete_inst(alloc: Global, words: &[&[u8]]) -> Result<Option<Command>, NoMemory>
    ensures { IfOk result (λ command. command ≡ delete_inst_form (texts words.now)) }
{
    match words {
        [module, inst] => {
            let Some(module) = name_of(alloc, module)? else {
                return Ok(None);
            };
            let Some(inst) = name_of(alloc, inst)? else {
                return Ok(None);
            };
            Ok(Some(Command::DeleteInst { module, inst }))
        }
        _ => Ok(None),
    }
}

/// `connect MODULE INST PORT BIT`, and further BITs; behind its first word.
fn read_connect(alloc: Global, words: &[&[u8]]) -> Result<Option<Command>, NoMemory>
    ensures { IfOk result (λ command. command ≡ connect_form (texts words.now)) }
{
    match words {
        [module, inst, others @ ..] => {
            let Some(module) = name_of(alloc, module)? else {
                return Ok(None);
            };
            let Some(inst) = name_of(alloc, inst)? else {
                return Ok(None);
            };
            read_pin_in(alloc, module, inst, others)
        }
        _ => Ok(None),
    }
}

/// The same, behind the instance's name.
fn read_pin_in(
    alloc: Global,
    module: Name,
    inst: Name,
    words: &[&[u8]],
) -> Result<Option<Command>, NoMemory>
    ensures { IfOk result (λ command. command ≡ pin_form «module» inst (texts words.now)) }
{
    match words {
        [port, others @ ..] => {
            if others.is_empty() {
                return Ok(None);
            }
            let Some(port) = name_of(alloc, port)? else {
                return Ok(None);
            };
            let Some(bits) = bits_of(alloc, others)? else {
                return Ok(None);
            };
            Ok(Some(Command::Connect {
                module,
                inst,
                port,
                bits,
            }))
        }
        _ => Ok(None),
    }
}

/// The sources that words say, if each of them says one.
fn bits_of(alloc: Global, words: &[&[u8]]) -> Result<Option<List<BitWord>>, NoMemory>
    ensures { IfOk result (λ found. found ≡ bits_of (texts words.now)) }
{
    let mut bits = List::new(alloc);
    for word in words {
        match bit_of(alloc, word)? {
            None => return Ok(None),
            Some(bit) => bits.push(bit)?,
        }
    }
    Ok(Some(bits))
}

/// `disconnect MODULE INST PORT`, behind its first word.
fn read_disconnect(alloc: Global, words: &[&[u8]]) -> Result<Option<Command>, NoMemory>
    ensures { IfOk result (λ command. command ≡ disconnect_form (texts words.now)) }
{
    match words {
        [module, inst, port] => {
            let Some(module) = name_of(alloc, module)? else {
                return Ok(None);
            };
            let Some(inst) = name_of(alloc, inst)? else {
                return Ok(None);
            };
            let Some(port) = name_of(alloc, port)? else {
                return Ok(None);
            };
            Ok(Some(Command::Disconnect { module, inst, port }))
        }
        _ => Ok(None),
    }
}

/// `rename_inst MODULE INST NAME`, behind its first word.
fn read_rename_inst(alloc: Global, words: &[&[u8]]) -> Result<Option<Command>, NoMemory>
    ensures { IfOk result (λ command. command ≡ rename_inst_form (texts words.now)) }
{
    match words {
        [module, inst, name] => {
            let Some(module) = name_of(alloc, module)? else {
                return Ok(None);
            };
            let Some(inst) = name_of(alloc, inst)? else {
                return Ok(None);
            };
            let Some(name) = name_of(alloc, name)? else {
                return Ok(None);
            };
            Ok(Some(Command::RenameInst { module, inst, name }))
        }
        _ => Ok(None),
    }
}

/// `resize MODULE INST MASTER`, behind its first word.
fn read_resize(alloc: Global, words: &[&[u8]]) -> Result<Option<Command>, NoMemory>
    ensures { IfOk result (λ command. command ≡ resize_form (texts words.now)) }
{
    match words {
        [module, inst, master] => {
            let Some(module) = name_of(alloc, module)? else {
                return Ok(None);
            };
            let Some(inst) = name_of(alloc, inst)? else {
                return Ok(None);
            };
            let Some(master) = name_of(alloc, master)? else {
                return Ok(None);
            };
            Ok(Some(Command::Resize {
                module,
                inst,
                master,
            }))
        }
        _ => Ok(None),
    }
}

/// `uniquify MODULE INST NAME`, behind its first word.
fn read_uniquify(alloc: Global, words: &[&[u8]]) -> Result<Option<Command>, NoMemory>
    ensures { IfOk result (λ command. command ≡ uniquify_form (texts words.now)) }
{
    match words {
        [module, inst, name] => {
            let Some(module) = name_of(alloc, module)? else {
                return Ok(None);
            };
            let Some(inst) = name_of(alloc, inst)? else {
                return Ok(None);
            };
            let Some(name) = name_of(alloc, name)? else {
                return Ok(None);
            };
            Ok(Some(Command::Uniquify { module, inst, name }))
        }
        _ => Ok(None),
    }
}
