//! What no report prints of edits that were done: the ids that they gave, the connections that they took away, and the
//! settings.
use super::asks::Ask;
use super::asks::Ask::{
    Connect, CreateInst, CreateModule, CreateNet, CreatePort, DeleteInst, DeleteModule, DeleteNet,
    DeletePort, Disconnect, Lock, Place, RenameInst, RenameModule, RenameNet, Resize, SetFanout,
    SetGrid, Uniquify, Unlock, Unplace,
};
use super::yard::{SPOT, STUCK, TIED, YARD};
use super::{Done, begun, is_done};
use edit_rules::Judged;
use emh_base::Src::{Bit, Tie0, Tie1};
use emh_base::{Dir, Fanout, ModId, NetId, Settings};
use samples::two_level::FRONT;

const MODULES: &[Done] = &[
    (&[], CreateModule("m"), Some(7), &[]),
    (&[], DeleteModule(6), None, &[]),
    (
        &[CreateModule("m"), DeleteModule(7)],
        CreateModule("m"),
        Some(8),
        &[],
    ),
    (&[], RenameModule(6, "other"), None, &[]),
    (&[], Lock(6), None, &[]),
    (&[Lock(6)], Unlock(6), None, &[]),
    (&[Lock(2)], Uniquify(3, 0, "own"), Some(7), &[]),
];

const NETS: &[Done] = &[
    (&[], CreateNet(6, "z", Some((0, 3))), Some(4), &[]),
    (
        &[DeleteNet(6, 2), CreateNet(6, "z", None), DeleteNet(6, 4)],
        CreateNet(6, "z", None),
        Some(5),
        &[],
    ),
    (&[], DeleteNet(6, 2), None, &[]),
    (&[], RenameNet(6, 0, "q"), None, &[]),
    (
        &[Lock(3)],
        CreatePort(2, "z", Dir::Inout, Some((1, 0))),
        Some(3),
        &[],
    ),
    (UNUSED, DeletePort(2, 0), None, &[]),
];

/// The first port of module 2 is open at each instance, one of which stands in a locked module, and isn't used.
const UNUSED: &[Ask] = &[
    Disconnect(2, 0, 0),
    Disconnect(3, 0, 0),
    Disconnect(3, 1, 0),
    Lock(3),
];

const INSTS: &[Done] = &[
    (&[], CreateInst(2, "u3", 0), Some(2), &[]),
    (&[], CreateInst(6, "x", 4), Some(2), &[]),
    (&[], DeleteInst(6, 1), None, TIED),
    (&[DeleteInst(6, 1)], CreateInst(6, "v", 0), Some(2), &[]),
    (
        &[],
        Connect(6, 0, 0, &[Bit(NetId(1), 3), Tie0]),
        None,
        &[&[Bit(NetId(1), 0), Bit(NetId(1), 1)]],
    ),
    (
        &[Disconnect(3, 1, 0)],
        Connect(3, 1, 0, &[Bit(NetId(2), 0)]),
        None,
        &[&[]],
    ),
    (&[], Connect(3, 0, 0, &[Tie1]), None, &[&[Bit(NetId(0), 0)]]),
    (&[], Disconnect(6, 1, 1), None, &[&[Tie1]]),
    (&[], RenameInst(6, 0, "x"), None, &[]),
    (&[], Resize(2, 1, 1), None, &[]),
];

const SPOTS: &[Done] = &[
    (
        &[Place(&[1, 0], SPOT), Place(&[0, 1], SPOT)],
        Place(&[1, 0], STUCK),
        None,
        &[],
    ),
    (&[Place(&[1, 0], STUCK)], Unplace(&[1, 0]), None, &[]),
    (
        &[Place(&[1, 0], STUCK), Place(&[0, 1], SPOT)],
        DeleteInst(2, 0),
        None,
        FRONT,
    ),
    (&[SetFanout(2, 1)], SetGrid(10), None, &[]),
    (&[SetGrid(1000000)], SetFanout(1000000, 0), None, &[]),
];

/// What each counter gives after edits that take nothing of it.
const COUNTED: &[Done] = &[
    (QUIET, CreateModule("m"), Some(7), &[]),
    (QUIET, CreateNet(6, "z", None), Some(4), &[]),
    (QUIET, CreateInst(6, "z", 0), Some(2), &[]),
    (
        &[CreateNet(6, "z", None)],
        CreateInst(6, "x", 0),
        Some(2),
        &[],
    ),
    (
        &[CreateInst(6, "x", 0)],
        CreateNet(6, "z", None),
        Some(4),
        &[],
    ),
    (&[CreateNet(6, "z", None)], CreateModule("m"), Some(7), &[]),
    (&[CreateModule("m")], CreateNet(7, "z", None), Some(0), &[]),
    (&[CreateModule("m")], CreateInst(7, "z", 0), Some(0), &[]),
    (
        &[CreatePort(2, "z", Dir::Inout, None)],
        CreateNet(2, "x", None),
        Some(4),
        &[],
    ),
    (
        &[CreatePort(2, "z", Dir::Inout, None)],
        CreateInst(2, "x", 0),
        Some(2),
        &[],
    ),
    (&[Uniquify(3, 0, "own")], CreateModule("m"), Some(8), &[]),
    (
        &[Uniquify(3, 0, "own")],
        CreateNet(7, "z", None),
        Some(3),
        &[],
    ),
    (
        &[Uniquify(3, 0, "own")],
        CreateInst(7, "z", 0),
        Some(2),
        &[],
    ),
];

const QUIET: &[Ask] = &[
    RenameModule(6, "other"),
    Lock(6),
    Unlock(6),
    DeleteNet(6, 2),
    RenameNet(6, 0, "q"),
    Disconnect(6, 1, 2),
    Connect(6, 0, 0, &[Tie0, Tie1]),
    RenameInst(6, 0, "x"),
    DeletePort(6, 0),
    Resize(2, 1, 1),
    Place(&[1, 0], STUCK),
    Unplace(&[1, 0]),
    DeleteInst(6, 1),
    SetFanout(2, 1),
    SetGrid(10),
];

#[test]
fn ids_and_connections_are_told(rt: HostRuntime) -> Result<(), Judged> {
    for cases in [MODULES, NETS, INSTS, SPOTS, COUNTED] {
        for case in cases {
            is_done(&rt, rt.alloc(), &YARD, case)?;
        }
    }
    Ok(())
}

const SETTINGS: &[(&[Ask], Settings)] = &[
    (
        &[SetFanout(2, 1), SetGrid(10)],
        Settings {
            fanout: Some(Fanout {
                max: 2,
                cell: ModId(1),
            }),
            grid: Some(10),
        },
    ),
    (
        &[SetGrid(1000000), SetFanout(1000000, 0)],
        Settings {
            fanout: Some(Fanout {
                max: 1000000,
                cell: ModId(0),
            }),
            grid: Some(1000000),
        },
    ),
];

#[test]
fn settings_are_as_they_were_set(rt: HostRuntime) -> Result<(), Judged> {
    for (asks, settings) in SETTINGS {
        let state = begun(&rt, rt.alloc(), &YARD, asks)?;
        assert!(rt; state.settings == *settings);
    }
    Ok(())
}
