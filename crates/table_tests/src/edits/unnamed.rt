//! Edits of what isn't there, which no line of a script asks for, since its words are looked up first; and which rules
//! are looked at before that.
use super::asks::Ask::{
    Connect, CreateInst, CreateNet, CreatePort, DeleteInst, DeleteModule, DeleteNet, DeletePort,
    Disconnect, Lock, Place, RenameInst, RenameModule, RenameNet, Resize, SetFanout, Uniquify,
    Unlock, Unplace,
};
use super::yard::{SPOT, YARD};
use super::{Refused, Told, is_refused};
use edit_rules::Judged;
use emh_base::Rule::{
    BitOutOfRange, IsCell, Locked, NoSuchInst, NoSuchModule, NoSuchNet, NoSuchOccurrence,
    NoSuchPort, WidthMismatch,
};
use emh_base::Src::Bit;
use emh_base::{Dir, InstId, ModId, NetId, Object};

const NO_MODULE: Told = (1, NoSuchModule, Object::Module(ModId(9)));

const CELL: Told = (10, IsCell, Object::Module(ModId(0)));

const LOCKED: Told = (24, Locked, Object::Module(ModId(6)));

/// Module 9 isn't there.
const NO_MODULES: &[Refused] = &[
    (&[], DeleteModule(9), NO_MODULE),
    (&[], Lock(9), NO_MODULE),
    (&[], Unlock(9), NO_MODULE),
    (&[], RenameModule(9, "z"), NO_MODULE),
    (&[], CreateNet(9, "z", None), NO_MODULE),
    (&[], DeleteNet(9, 0), NO_MODULE),
    (&[], CreatePort(9, "z", Dir::Input, None), NO_MODULE),
    (&[], DeletePort(9, 0), NO_MODULE),
    (&[], RenameNet(9, 0, "z"), NO_MODULE),
    (&[], CreateInst(9, "z", 9), NO_MODULE),
    (&[], CreateInst(6, "w", 9), NO_MODULE),
    (&[], DeleteInst(9, 0), NO_MODULE),
    (&[], Connect(9, 0, 0, &[]), NO_MODULE),
    (&[], Disconnect(9, 0, 0), NO_MODULE),
    (&[], RenameInst(9, 0, "z"), NO_MODULE),
    (&[], Resize(9, 0, 9), NO_MODULE),
    (&[], Resize(3, 0, 9), NO_MODULE),
    (&[], Uniquify(9, 0, "z"), NO_MODULE),
    (&[], SetFanout(1, 9), NO_MODULE),
];

/// Module 0 is a leaf, module 6 is locked, and neither has an object 9.
const MODULES_FIRST: &[Refused] = &[
    (&[], DeleteNet(0, 9), CELL),
    (&[Lock(6)], DeleteNet(6, 9), LOCKED),
    (&[], DeletePort(0, 9), CELL),
    (&[Lock(6)], DeletePort(6, 9), LOCKED),
    (&[], CreateInst(0, "A", 9), CELL),
    (&[Lock(6)], CreateInst(6, "w", 9), LOCKED),
    (&[], DeleteInst(0, 9), CELL),
    (&[Lock(6)], DeleteInst(6, 9), LOCKED),
    (&[], Connect(0, 9, 0, &[]), CELL),
    (&[Lock(6)], Connect(6, 9, 0, &[]), LOCKED),
    (&[], Disconnect(0, 9, 0), CELL),
    (&[Lock(6)], Disconnect(6, 9, 0), LOCKED),
    (&[], RenameNet(0, 9, "z"), CELL),
    (&[Lock(6)], RenameNet(6, 9, "z"), LOCKED),
    (&[], RenameInst(0, 9, "z"), CELL),
    (&[Lock(6)], RenameInst(6, 9, "z"), LOCKED),
    (&[], Resize(0, 9, 9), CELL),
    (&[Lock(6)], Resize(6, 9, 9), LOCKED),
    (&[], Uniquify(0, 9, "z"), CELL),
    (&[Lock(6)], Uniquify(6, 9, "z"), LOCKED),
];

const NO_NET: Told = (2, NoSuchNet, Object::Net(ModId(6), NetId(9)));

/// Net 9 isn't there, and net 1 is no port's.
const NO_NETS: &[Refused] = &[
    (&[], DeleteNet(6, 9), NO_NET),
    (&[], RenameNet(6, 9, "w"), NO_NET),
    (
        &[],
        DeletePort(6, 9),
        (4, NoSuchPort, Object::Port(ModId(6), NetId(9))),
    ),
    (
        &[],
        DeletePort(6, 1),
        (4, NoSuchPort, Object::Port(ModId(6), NetId(1))),
    ),
];

const NO_INST: Told = (3, NoSuchInst, Object::Inst(ModId(6), InstId(2)));

const NO_PORT: Told = (4, NoSuchPort, Object::Port(ModId(5), NetId(9)));

/// Instance 2 isn't there, nor is port 9 of module 5, the master of instance 0. Net 2 has one bit, and net 1 four.
const NO_INSTS: &[Refused] = &[
    (&[], DeleteInst(6, 2), NO_INST),
    (&[], Connect(6, 2, 9, &[]), NO_INST),
    (&[], Connect(6, 0, 9, &[]), NO_PORT),
    (
        &[],
        Connect(6, 0, 1, &[Bit(NetId(2), 0), Bit(NetId(9), 0)]),
        NO_NET,
    ),
    (
        &[],
        Connect(6, 0, 1, &[Bit(NetId(2), 1), Bit(NetId(9), 0)]),
        (13, BitOutOfRange, Object::Net(ModId(6), NetId(2))),
    ),
    (
        &[],
        Connect(6, 0, 0, &[Bit(NetId(1), 3), Bit(NetId(1), 4)]),
        (13, BitOutOfRange, Object::Net(ModId(6), NetId(1))),
    ),
    (
        &[],
        Connect(6, 0, 0, &[]),
        (12, WidthMismatch, Object::Port(ModId(5), NetId(0))),
    ),
    (&[], Disconnect(6, 2, 9), NO_INST),
    (&[], Disconnect(6, 0, 9), NO_PORT),
    (&[], RenameInst(6, 2, "u"), NO_INST),
    (&[], Resize(6, 2, 9), NO_INST),
    (
        &[],
        Uniquify(3, 9, "z"),
        (3, NoSuchInst, Object::Inst(ModId(3), InstId(9))),
    ),
    (&[], Place(&[2], SPOT), (18, NoSuchOccurrence, Object::Spot)),
    (
        &[],
        Unplace(&[1, 0, 0]),
        (18, NoSuchOccurrence, Object::Spot),
    ),
];

#[test]
fn what_is_not_there_is_refused(rt: HostRuntime) -> Result<(), Judged> {
    for cases in [NO_MODULES, MODULES_FIRST, NO_NETS, NO_INSTS] {
        for case in cases {
            is_refused(&rt, rt.alloc(), &YARD, case)?;
        }
    }
    Ok(())
}
