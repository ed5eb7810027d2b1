ghost use Rattle.std.specs.Prelude.{◌≡◌, IfOk};
ghost use Rattle.word_table.specs.Texts.{texts};
ghost use Rattle.script_read.specs.Table.{create_net_form, delete_net_form, create_port_form, delete_port_form, rename_net_form, port_form, form_in, net_rows};

use crate::command::Command;
use crate::insts::read_insts;
use crate::word::{dir_of, name_of, range_of};
use emh_base::{Name, NoMemory};
use std::alloc::Global;

/// What a line asks for, by its first word and those behind it, where its row stands among those
/// of edits of nets and ports or further on.
pub fn read_nets(alloc: Global, first: &[u8], words: &[&[u8]]) -> Result<Option<Command>, NoMemory>
    ensures { IfOk result (λ command. command ≡ form_in net_rows first.now (texts words.now)) }
{
    if first == b"create_net".as_slice() {
        read_create_net(alloc, words)
    } else if first == b"delete_net".as_slice() {
        read_delete_net(alloc, words)
    } else if first == b"create_port".as_slice() {
        read_create_port(alloc, words)
    } else if first == b"delete_port".as_slice() {
        read_delete_port(alloc, words)
    } else if first == b"rename_net".as_slice() {
        read_rename_net(alloc, words)
    } else {
        read_insts(alloc, first, words)
    }
}

/// `create_net MODULE NAME`, with a RANGE or without one; behind its first word.
fn read_create_net(alloc: Global, words: &[&[u8]]) -> Result<Option<Command>, NoMemory>
    ensures { IfOk result (λ command. command ≡ create_net_form (texts words.now)) }
{
    match words {
        [module, name, others @ ..] => {
            let Some(module) = name_of(alloc, module)? else {
                return Ok(None);
            };
            let Some(name) = name_of(alloc, name)? else {
                return Ok(None);
            };
            match others {
                [] => Ok(Some(Command::CreateNet {
                    module,
                    name,
                    range: None,
                })),
                [range] => match range_of(alloc, range)? {
                    None => Ok(None),
                    Some(range) => Ok(Some(Command::CreateNet {
                        module,
                        name,
                        range: Some(range),
                    })),
                },
                _ => Ok(None),
            }
        }
        _ => Ok(None),
    }
}

/// `delete_net MODULE NET`, behind its first word.
fn read_delete_net(alloc: Global, words: &[&[u8]]) -> Result<Option<Command>, NoMemory>
    ensures { IfOk result (λ command. command ≡ delete_net_form (texts words.now)) }
{
    match words {
        [module, net] => {
            let Some(module) = name_of(alloc, module)? else {
                return Ok(None);
            };
            let Some(net) = name_of(alloc, net)? else {
                return Ok(None);
            };
            Ok(Some(Command::DeleteNet { module, net }))
        }
        _ => Ok(None),
    }
}

/// `create_port MODULE NAME DIR`, with a RANGE or without one; behind its first word.
fn read_create_port(alloc: Global, words: &[&[u8]]) -> Result<Option<Command>, NoMemory>
    ensures { IfOk result (λ command. command ≡ create_port_form (texts words.now)) }
{
    match words {
        [module, others @ ..] => {
            let Some(module) = name_of(alloc, module)? else {
                return Ok(None);
            };
            read_port_in(alloc, module, others)
        }
        _ => Ok(None),
    }
}

/// The same, behind the module's name.
fn read_port_in(alloc: Global, module: Name, words: &[&[u8]]) -> Result<Option<Command>, NoMemory>
    ensures { IfOk result (λ command. command ≡ port_form «module» (texts words.now)) }
{
    match words {
        [name, dir, others @ ..] => {
            let Some(name) = name_of(alloc, name)? else {
                return Ok(None);
            };
            let Some(dir) = dir_of(dir) else {
                return Ok(None);
            };
            match others {
                [] => Ok(Some(Command::CreatePort {
                    module,
                    name,
                    dir,
                    range: None,
                })),
                [range] => match range_of(alloc, range)? {
                    None => Ok(None),
                    Some(range) => Ok(Some(Command::CreatePort {
                        module,
                        name,
                        dir,
                        range: Some(range),
                    })),
                },
                _ => Ok(None),
            }
        }
        _ => Ok(None),
    }
}

/// `delete_port MODULE PORT`, behind its first word.
fn read_delete_port(alloc: Global, words: &[&[u8]]) -> Result<Option<Command>, NoMemory>
    ensures { IfOk result (λ command. command ≡ delete_port_form (texts words.now)) }
{
    match words {
        [module, port] => {
            let Some(module) = name_of(alloc, module)? else {
                return Ok(None);
            };
            let Some(port) = name_of(alloc, port)? else {
                return Ok(None);
            };
            Ok(Some(Command::DeletePort { module, port }))
        }
        _ => Ok(None),
    }
}

/// `rename_net MODULE NET NAME`, behind its first word.
fn read_rename_net(alloc: Global, words: &[&[u8]]) -> Result<Option<Command>, NoMemory>
    ensures { IfOk result (λ command. command ≡ rename_net_form (texts words.now)) }
{
    match words {
        [module, net, name] => {
            let Some(module) = name_of(alloc, module)? else {
                return Ok(None);
            };
            let Some(net) = name_of(alloc, net)? else {
                return Ok(None);
            };
            let Some(name) = name_of(alloc, name)? else {
                return Ok(None);
            };
            Ok(Some(Command::RenameNet { module, net, name }))
        }
        _ => Ok(None),
    }
}
