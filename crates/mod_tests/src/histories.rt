//! Changes of a kept table that are made, undone, redone, abandoned and forgotten.
use crate::records::Step::{Abandons, Does, Forget, Redo, Undo};
use crate::records::{Record, Taken, goes_back_and_forth, plays};
use emh_base::Dir::{Inout, Input, Output};
use samples::asks::Ask;
use samples::asks::Ask::{
    CreateInst, CreateModule, CreateNet, CreatePort, DeleteInst, DeleteModule, DeleteNet,
    DeletePort, Lock, RenameInst, RenameModule, RenameNet, Unlock,
};
use std::test::Fail;

const TWO_MODULES: &[Ask] = &[
    CreateModule("INV"),
    CreatePort(0, "A", Input, None),
    CreatePort(0, "Y", Output, None),
    CreateModule("half"),
    CreatePort(1, "a", Inout, Some((1, 0))),
    CreateNet(1, "n", Some((0, 3))),
    CreateNet(1, "A", None),
];

const READ: &str =
    "0 INV (0 A input) (1 Y output) 2; 1 half (0 a[1:0] inout) (1 n[0:3]) (2 A) 3; 2";

const IN_ONE_RECORD: &[Taken] = &[
    (Does(TWO_MODULES), READ, 1, 0),
    (Undo, "0", 0, 1),
    (Redo, READ, 1, 0),
];

/// An open record's changes are read, and gone where it is abandoned. What is remembered and to redo stays.
const ABANDONED: &[Taken] = &[
    (
        Does(&[CreateModule("top"), CreateNet(0, "w", None)]),
        "0 top (0 w) 1; 1",
        1,
        0,
    ),
    (
        Abandons(
            &[
                RenameModule(0, "half"),
                DeleteNet(0, 0),
                CreatePort(0, "a", Output, None),
                CreateModule("INV"),
            ],
            "0 half (1 a output) 2; 1 INV empty 0; 2",
        ),
        "0 top (0 w) 1; 1",
        1,
        0,
    ),
    (Undo, "0", 0, 1),
    (
        Abandons(&[CreateModule("INV")], "0 INV empty 0; 1"),
        "0",
        0,
        1,
    ),
    (Redo, "0 top (0 w) 1; 1", 1, 0),
];

/// A forgotten record can't be undone, and those after it can.
const FORGOTTEN: &[Taken] = &[
    (Does(&[CreateModule("top")]), "0 top empty 0; 1", 1, 0),
    (
        Does(&[CreateModule("half")]),
        "0 top empty 0; 1 half empty 0; 2",
        2,
        0,
    ),
    (Forget, "0 top empty 0; 1 half empty 0; 2", 1, 0),
    (Undo, "0 top empty 0; 1", 0, 1),
    (Redo, "0 top empty 0; 1 half empty 0; 2", 1, 0),
    (Forget, "0 top empty 0; 1 half empty 0; 2", 0, 0),
];

/// A counter goes on after a delete, and goes back only with what is undone.
const COUNTED: &[Taken] = &[
    (
        Does(&[CreateModule("a"), CreateNet(0, "n", None)]),
        "0 a (0 n) 1; 1",
        1,
        0,
    ),
    (Does(&[DeleteNet(0, 0)]), "0 a empty 1; 1", 2, 0),
    (Does(&[CreateNet(0, "n", None)]), "0 a (1 n) 2; 1", 3, 0),
    (Undo, "0 a empty 1; 1", 2, 1),
    (
        Does(&[CreatePort(0, "p", Inout, None)]),
        "0 a (1 p inout) 2; 1",
        3,
        0,
    ),
    (Does(&[DeletePort(0, 1), DeleteModule(0)]), "1", 4, 0),
    (Does(&[CreateModule("a")]), "1 a empty 0; 2", 5, 0),
    (Undo, "1", 4, 1),
    (Does(&[CreateModule("b")]), "1 b empty 0; 2", 5, 0),
];

/// A master goes only where its instances have gone. Both come back with an abandoned record and by an undo.
const INSTANCES: &[Taken] = &[
    (
        Does(&[CreateModule("m"), CreateModule("n"), CreateInst(1, "u", 0)]),
        "0 m used empty 0; 1 n 0 [0 u of 0] 1; 2",
        1,
        0,
    ),
    (
        Abandons(&[DeleteInst(1, 0), DeleteModule(0)], "1 n empty 0 1; 2"),
        "0 m used empty 0; 1 n 0 [0 u of 0] 1; 2",
        1,
        0,
    ),
    (
        Does(&[DeleteInst(1, 0), CreateInst(1, "u", 0)]),
        "0 m used empty 0; 1 n 0 [1 u of 0] 2; 2",
        2,
        0,
    ),
    (Undo, "0 m used empty 0; 1 n 0 [0 u of 0] 1; 2", 1, 1),
    (
        Does(&[RenameInst(1, 0, "v")]),
        "0 m used empty 0; 1 n 0 [0 v of 0] 1; 2",
        2,
        0,
    ),
    (Undo, "0 m used empty 0; 1 n 0 [0 u of 0] 1; 2", 1, 1),
    (Redo, "0 m used empty 0; 1 n 0 [0 v of 0] 1; 2", 2, 0),
];

#[test]
fn records_are_taken_in_order(rt: HostRuntime) -> Result<(), Fail> {
    for steps in [IN_ONE_RECORD, ABANDONED, FORGOTTEN, COUNTED, INSTANCES] {
        plays(&rt, rt.alloc(), steps)?;
    }
    Ok(())
}

/// Each method in a record of its own.
const EACH: &[Record] = &[
    (&[CreateModule("top")], "0 top empty 0; 1"),
    (&[CreateModule("half")], "0 top empty 0; 1 half empty 0; 2"),
    (
        &[RenameModule(0, "INV")],
        "0 INV empty 0; 1 half empty 0; 2",
    ),
    (&[Lock(1)], "0 INV empty 0; 1 half locked empty 0; 2"),
    (
        &[CreateNet(1, "w", Some((3, 0)))],
        "0 INV empty 0; 1 half locked (0 w[3:0]) 1; 2",
    ),
    (
        &[CreatePort(1, "a", Input, None)],
        "0 INV empty 0; 1 half locked (0 w[3:0]) (1 a input) 2; 2",
    ),
    (
        &[RenameNet(1, 1, "b")],
        "0 INV empty 0; 1 half locked (0 w[3:0]) (1 b input) 2; 2",
    ),
    (
        &[RenameNet(1, 0, "top")],
        "0 INV empty 0; 1 half locked (0 top[3:0]) (1 b input) 2; 2",
    ),
    (
        &[Unlock(1)],
        "0 INV empty 0; 1 half (0 top[3:0]) (1 b input) 2; 2",
    ),
    (
        &[CreateInst(0, "u", 1)],
        "0 INV 0 [0 u of 1] 1; 1 half used (0 top[3:0]) (1 b input) 2; 2",
    ),
    (
        &[RenameInst(0, 0, "v")],
        "0 INV 0 [0 v of 1] 1; 1 half used (0 top[3:0]) (1 b input) 2; 2",
    ),
    (
        &[DeleteInst(0, 0)],
        "0 INV empty 0 1; 1 half (0 top[3:0]) (1 b input) 2; 2",
    ),
    (
        &[DeleteNet(1, 0)],
        "0 INV empty 0 1; 1 half (1 b input) 2; 2",
    ),
    (&[DeletePort(1, 1)], "0 INV empty 0 1; 1 half empty 2; 2"),
    (&[DeleteModule(1)], "0 INV empty 0 1; 2"),
    (&[DeleteModule(0)], "2"),
];

const THREE_NETS: Record = (
    &[
        CreateModule("m"),
        CreateNet(0, "a", None),
        CreateNet(0, "b", None),
        CreateNet(0, "c", None),
    ],
    "0 m (0 a) (1 b) (2 c) 3; 1",
);

const FIRST_NET: &[Record] = &[
    THREE_NETS,
    (&[DeleteNet(0, 0)], "0 m (1 b) (2 c) 3; 1"),
    (&[CreateNet(0, "d", None)], "0 m (1 b) (2 c) (3 d) 4; 1"),
];

const MIDDLE_NET: &[Record] = &[
    THREE_NETS,
    (&[DeleteNet(0, 1)], "0 m (0 a) (2 c) 3; 1"),
    (&[DeleteNet(0, 2)], "0 m (0 a) 3; 1"),
    (&[DeleteNet(0, 0)], "0 m empty 3; 1"),
];

const LAST_NET: &[Record] = &[
    THREE_NETS,
    (&[DeleteNet(0, 2)], "0 m (0 a) (1 b) 3; 1"),
    (&[CreateNet(0, "d", None)], "0 m (0 a) (1 b) (3 d) 4; 1"),
];

const THREE_PORTS: Record = (
    &[
        CreateModule("m"),
        CreatePort(0, "a", Input, None),
        CreateNet(0, "n", None),
        CreatePort(0, "b", Output, None),
        CreatePort(0, "c", Inout, None),
    ],
    "0 m (0 a input) (1 n) (2 b output) (3 c inout) 4; 1",
);

const FIRST_PORT: &[Record] = &[
    THREE_PORTS,
    (
        &[DeletePort(0, 0)],
        "0 m (1 n) (2 b output) (3 c inout) 4; 1",
    ),
    (&[DeleteNet(0, 1)], "0 m (2 b output) (3 c inout) 4; 1"),
];

const MIDDLE_PORT: &[Record] = &[
    THREE_PORTS,
    (
        &[DeletePort(0, 2)],
        "0 m (0 a input) (1 n) (3 c inout) 4; 1",
    ),
    (&[DeletePort(0, 3), DeletePort(0, 0)], "0 m (1 n) 4; 1"),
];

const LAST_PORT: &[Record] = &[
    THREE_PORTS,
    (
        &[DeletePort(0, 3)],
        "0 m (0 a input) (1 n) (2 b output) 4; 1",
    ),
    (
        &[CreatePort(0, "d", Input, None)],
        "0 m (0 a input) (1 n) (2 b output) (4 d input) 5; 1",
    ),
];

const MODULES: &[Record] = &[
    (
        &[CreateModule("a"), CreateModule("b"), CreateModule("c")],
        "0 a empty 0; 1 b empty 0; 2 c empty 0; 3",
    ),
    (&[DeleteModule(1)], "0 a empty 0; 2 c empty 0; 3"),
    (
        &[CreateModule("d"), DeleteModule(0)],
        "2 c empty 0; 3 d empty 0; 4",
    ),
    (&[DeleteModule(3)], "2 c empty 0; 4"),
];

const THREE_INSTANCES: Record = (
    &[
        CreateModule("m"),
        CreateModule("n"),
        CreateInst(1, "a", 0),
        CreateInst(1, "b", 0),
        CreateInst(1, "c", 0),
    ],
    "0 m used empty 0; 1 n 0 [0 a of 0] [1 b of 0] [2 c of 0] 3; 2",
);

const FIRST_INSTANCE: &[Record] = &[
    THREE_INSTANCES,
    (
        &[DeleteInst(1, 0)],
        "0 m used empty 0; 1 n 0 [1 b of 0] [2 c of 0] 3; 2",
    ),
    (
        &[CreateInst(1, "d", 0)],
        "0 m used empty 0; 1 n 0 [1 b of 0] [2 c of 0] [3 d of 0] 4; 2",
    ),
];

const MIDDLE_INSTANCE: &[Record] = &[
    THREE_INSTANCES,
    (
        &[DeleteInst(1, 1)],
        "0 m used empty 0; 1 n 0 [0 a of 0] [2 c of 0] 3; 2",
    ),
    (
        &[DeleteInst(1, 2)],
        "0 m used empty 0; 1 n 0 [0 a of 0] 3; 2",
    ),
    (&[DeleteInst(1, 0)], "0 m empty 0; 1 n empty 0 3; 2"),
    (&[DeleteModule(0)], "1 n empty 0 3; 2"),
];

const LAST_INSTANCE: &[Record] = &[
    THREE_INSTANCES,
    (
        &[DeleteInst(1, 2)],
        "0 m used empty 0; 1 n 0 [0 a of 0] [1 b of 0] 3; 2",
    ),
    (
        &[CreateInst(1, "d", 0)],
        "0 m used empty 0; 1 n 0 [0 a of 0] [1 b of 0] [3 d of 0] 4; 2",
    ),
];

/// Users of a master in two modules, one of which has a user too.
const USERS: &[Record] = &[
    (
        &[
            CreateModule("INV"),
            CreateModule("half"),
            CreateModule("top"),
            CreateInst(1, "x", 0),
            CreateInst(2, "y", 0),
            CreateInst(2, "z", 1),
        ],
        "0 INV used empty 0; 1 half used 0 [0 x of 0] 1; 2 top 0 [0 y of 0] [1 z of 1] 2; 3",
    ),
    (
        &[CreatePort(0, "A", Input, None), RenameModule(0, "NOT")],
        "0 NOT used (0 A input) 1; 1 half used 0 [0 x of 0] 1; 2 top 0 [0 y of 0] [1 z of 1] 2; 3",
    ),
    (
        &[DeleteInst(2, 0)],
        "0 NOT used (0 A input) 1; 1 half used 0 [0 x of 0] 1; 2 top 0 [1 z of 1] 2; 3",
    ),
    (
        &[DeleteInst(2, 1)],
        "0 NOT used (0 A input) 1; 1 half 0 [0 x of 0] 1; 2 top empty 0 2; 3",
    ),
    (
        &[DeleteInst(1, 0), DeletePort(0, 0), DeleteModule(0)],
        "1 half empty 0 1; 2 top empty 0 2; 3",
    ),
];

/// A kept table takes an instance of the module that holds it; the rules of edits don't.
const OF_ITSELF: &[Record] = &[
    (
        &[CreateModule("m"), CreateInst(0, "s", 0)],
        "0 m used 0 [0 s of 0] 1; 1",
    ),
    (
        &[CreateInst(0, "t", 0), DeleteInst(0, 0)],
        "0 m used 0 [1 t of 0] 2; 1",
    ),
    (&[DeleteInst(0, 1)], "0 m empty 0 2; 1"),
];

#[test]
fn records_are_undone_and_redone(rt: HostRuntime) -> Result<(), Fail> {
    for records in [
        EACH,
        FIRST_NET,
        MIDDLE_NET,
        LAST_NET,
        FIRST_PORT,
        MIDDLE_PORT,
        LAST_PORT,
        MODULES,
        FIRST_INSTANCE,
        MIDDLE_INSTANCE,
        LAST_INSTANCE,
        USERS,
        OF_ITSELF,
    ] {
        goes_back_and_forth(&rt, rt.alloc(), records)?;
    }
    Ok(())
}
