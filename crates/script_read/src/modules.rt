ghost use Rattle.std.specs.Prelude.{◌≡◌, IfOk};
ghost use Rattle.word_table.specs.Texts.{texts};
ghost use Rattle.script_read.specs.Table.{create_module_form, delete_module_form, rename_module_form, lock_form, unlock_form, form_in, module_rows};

use crate::command::Command;
use crate::nets::read_nets;
use crate::word::name_of;
use emh_base::NoMemory;
use std::alloc::Global;

/// What a line asks for, by its first word and those behind it, where its row stands among those
/// of edits of modules or further on.
pub fn read_modules(
    alloc: Global,
    first: &[u8],
    words: &[&[u8]],
) -> Result<Option<Command>, NoMemory>
    ensures { IfOk result (λ command. command ≡ form_in module_rows first.now (texts words.now)) }
{
    if first == b"create_module".as_slice() {
        read_create_module(alloc, words)
    } else if first == b"delete_module".as_slice() {
        read_delete_module(alloc, words)
    } else if first == b"rename_module".as_slice() {
        read_rename_module(alloc, words)
    } else if first == b"lock".as_slice() {
        read_lock(alloc, words)
    } else if first == b"unlock".as_slice() {
        read_unlock(alloc, words)
    } else {
        read_nets(alloc, first, words)
    }
}

/// `create_module NAME`, behind its first word.
fn read_create_module(alloc: Global, words: &[&[u8]]) -> Result<Option<Command>, NoMemory>
    ensures { IfOk result (λ command. command ≡ create_module_form (texts words.now)) }
{
    match words {
        [name] => {
            let Some(name) = name_of(alloc, name)? else {
                return Ok(None);
            };
            Ok(Some(Command::CreateModule { name }))
        }
        _ => Ok(None),
    }
}

/// `delete_module MODULE`, behind its first word.
fn read_delete_module(alloc: Global, words: &[&[u8]]) -> Result<Option<Command>, NoMemory>
    ensures { IfOk result (λ command. command ≡ delete_module_form (texts words.now)) }
{
    match words {
        [module] => {
            let Some(module) = name_of(alloc, module)? else {
                return Ok(None);
            };
            Ok(Some(Command::DeleteModule { module }))
        }
        _ => Ok(None),
    }
}

/// `rename_module MODULE NAME`, behind its first word.
fn read_rename_module(alloc: Global, words: &[&[u8]]) -> Result<Option<Command>, NoMemory>
    ensures { IfOk result (λ command. command ≡ rename_module_form (texts words.now)) }
{
    match words {
        [module, name] => {
            let Some(module) = name_of(alloc, module)? else {
                return Ok(None);
            };
            let Some(name) = name_of(alloc, name)? else {
                return Ok(None);
            };
            Ok(Some(Command::RenameModule { module, name }))
        }
        _ => Ok(None),
    }
}

/// `lock MODULE`, behind its first word.
fn read_lock(alloc: Global, words: &[&[u8]]) -> Result<Option<Command>, NoMemory>
    ensures { IfOk result (λ command. command ≡ lock_form (texts words.now)) }
{
    match words {
        [module] => {
            let Some(module) = name_of(alloc, module)? else {
                return Ok(None);
            };
            Ok(Some(Command::Lock { module }))
        }
        _ => Ok(None),
    }
}

/// `unlock MODULE`, behind its first word.
fn read_unlock(alloc: Global, words: &[&[u8]]) -> Result<Option<Command>, NoMemory>
    ensures { IfOk result (λ command. command ≡ unlock_form (texts words.now)) }
{
    match words {
        [module] => {
            let Some(module) = name_of(alloc, module)? else {
                return Ok(None);
            };
            Ok(Some(Command::Unlock { module }))
        }
        _ => Ok(None),
    }
}
