//! A table that is made and not read: with gaps between ids, a module that is locked, and ports in falling order of id.
use emh_base::{Dir, NetId, Src};
use samples::designs::{BARE, Design};
use samples::modules::{EMPTY, Module};

const CELL: Module = Module {
    id: 3,
    name: "CELL",
    leaf: true,
    nets: &[(4, "P", None), (7, "Q", Some((1, 0)))],
    ports: &[(7, Dir::Output), (4, Dir::Input)],
    next_net: 12,
    next_inst: 2,
    ..EMPTY
};

const HELD: Module = Module {
    id: 5,
    name: "held",
    locked: true,
    nets: &[(2, "n", Some((0, 1))), (9, "x", None)],
    ports: &[(9, Dir::Input)],
    insts: &[
        (
            1,
            "u",
            3,
            &[
                &[Src::Bit(NetId(2), 0), Src::Bit(NetId(2), 1)],
                &[Src::Bit(NetId(9), 0)],
            ],
        ),
        (6, "v", 3, &[&[], &[Src::Tie1]]),
    ],
    next_net: 10,
    next_inst: 8,
    ..EMPTY
};

pub const MADE: Design = Design {
    modules: &[CELL, HELD],
    next_module: 8,
    top: 5,
    ..BARE
};

pub const MADE_WRITTEN: &str = "`celldefine
module CELL (Q, P);
  output [1:0] Q;
  input P;
endmodule
`endcelldefine
module held (x);
  input x;
  wire [0:1] n;
  CELL u (.Q(n), .P(x));
  CELL v (.Q(), .P(1'b1));
endmodule
";
