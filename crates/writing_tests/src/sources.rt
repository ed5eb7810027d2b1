//! Netlists, each with its top and with what is written of its table.

use emh_base::{List, NoMemory};
use samples::texts::{COUNTER, TWO_LEVELS};
use std::alloc::Global;

/// A netlist, the name of its top, and what is written of its table: the cells, and then the other modules. It is two
/// texts, one behind the other, of which the first may be empty.
pub struct Source {
    pub cells: &'static [u8],
    pub text: &'static [u8],
    pub top: &'static [u8],
    pub written: &'static str,
}

impl Source {
    /// The netlist as one text.
    pub fn netlist(&self, alloc: Global) -> Result<List<u8>, NoMemory> {
        let mut netlist = List::from_slice(alloc, self.cells)?;
        netlist.extend(self.text)?;
        Ok(netlist)
    }
}

/// Two levels of hierarchy over an inverter.
const TWO_LEVEL: Source = Source {
    cells: b"",
    text: TWO_LEVELS,
    top: b"top",
    written: "`celldefine
module INV (A, Y);
  input A;
  output Y;
endmodule
module BUF (A, Y);
  input A;
  output Y;
endmodule
`endcelldefine
module pair (a, y);
  input a;
  output y;
  wire m;
  INV u1 (.A(a), .Y(m));
  INV u2 (.A(m), .Y(y));
endmodule
module top (i, o);
  input i;
  output o;
  wire w;
  pair p (.a(i), .y(w));
  pair q (.a(w), .y(o));
endmodule
",
};

/// A bus that rises, on bits of two that fall and on a literal.
const JOINED: Source = Source {
    cells: b"",
    text: b"`celldefine module C7 (input [0:6] D); endmodule `endcelldefine
module t(a,b); input [3:0] a,b; C7 u(.D({a[0],4'h3,b[2:1]})); endmodule",
    top: b"t",
    written: "`celldefine
module C7 (D);
  input [0:6] D;
endmodule
`endcelldefine
module t (a, b);
  input [3:0] a;
  input [3:0] b;
  C7 u (.D({a[0], 1'b0, 1'b0, 1'b1, 1'b1, b[2], b[1]}));
endmodule
",
};

/// A net whose name reads as the bit of another one.
const ESCAPED: Source = Source {
    cells: b"",
    text: b"`celldefine module INV (A, Y); input A; output Y; endmodule `endcelldefine
module t (); wire \\a/b ; wire \\wire ; wire \\bus[3] ; wire [3:0] bus;
INV \\x.y (.A(\\bus[3] ), .Y(bus[3])); endmodule",
    top: b"t",
    written: "`celldefine
module INV (A, Y);
  input A;
  output Y;
endmodule
`endcelldefine
module t ();
  wire \\a/b ;
  wire \\wire ;
  wire \\bus[3] ;
  wire [3:0] bus;
  INV \\x.y  (.A(\\bus[3] ), .Y(bus[3]));
endmodule
",
};

/// A netlist as a synthesis tool writes it.
const SYNTHESIZED: Source = Source {
    cells: b"`celldefine
module XOR2(input A, input B, output Y); endmodule
module AND2(input A, input B, output Y); endmodule
module DFF2(input CK, input [1:0] D, output [1:0] Q, input SE); endmodule
`endcelldefine
",
    text: COUNTER,
    top: b"cnt",
    written: "`celldefine
module XOR2 (A, B, Y);
  input A;
  input B;
  output Y;
endmodule
module AND2 (A, B, Y);
  input A;
  input B;
  output Y;
endmodule
module DFF2 (CK, D, Q, SE);
  input CK;
  input [1:0] D;
  output [1:0] Q;
  input SE;
endmodule
`endcelldefine
module cnt (clk, en, q);
  input clk;
  input en;
  output [1:0] q;
  wire _0_;
  wire [1:0] d$x;
  XOR2 _1_ (.A(q[0]), .B(en), .Y(d$x[0]));
  AND2 _2_ (.A(q[0]), .B(en), .Y(_0_));
  XOR2 _3_ (.A(q[1]), .B(_0_), .Y(d$x[1]));
  DFF2 r (.CK(clk), .D(d$x), .Q(q), .SE(1'b0));
endmodule
",
};

/// Every kind of connection: open, a whole net by its name or bit by bit, bits in another order, ties, a part of a net,
/// one bit, and a net of one bit with a range.
const CONNECTIONS: Source = Source {
    cells: b"",
    text: b"`celldefine
module FOUR(input [3:0] A, output [0:1] Y); endmodule
module ONE(input A, output [0:0] Y); endmodule
`endcelldefine
module t(); wire [3:0] f; wire [0:3] r; wire [0:0] o; wire [7:4] h; wire s;
  FOUR open(.A(), .Y()), none();
  FOUR whole(.A(f), .Y(r[0:1])), bits(.A({f[3], f[2:0]}), .Y({s, o}));
  FOUR rising(.A({r[0], r[1:3]}), .Y(r[2:3])), falling(.A({r[3], r[2], r[1], r[0]}), .Y(2'b10));
  FOUR turned(.A({f[2], f[3], f[1], f[0]}), .Y({o, o})), part(.A(h), .Y(h[5:4]));
  FOUR tied(.A({1'b1, f[3], 1'b0, s}), .Y({f[0], f[3]})), two(.A({h[7:6], f[1:0]}));
  ONE alone(.A(o), .Y(o)), bit(.A(f[3]), .Y(s)), tie(.A(1'b1), .Y(o[0])), last(.A(h[4]), .Y(1'b0));
endmodule
",
    top: b"t",
    written: "`celldefine
module FOUR (A, Y);
  input [3:0] A;
  output [0:1] Y;
endmodule
module ONE (A, Y);
  input A;
  output [0:0] Y;
endmodule
`endcelldefine
module t ();
  wire [3:0] f;
  wire [0:3] r;
  wire [0:0] o;
  wire [7:4] h;
  wire s;
  FOUR open (.A(), .Y());
  FOUR none (.A(), .Y());
  FOUR whole (.A(f), .Y({r[0], r[1]}));
  FOUR bits (.A(f), .Y({s, o[0]}));
  FOUR rising (.A(r), .Y({r[2], r[3]}));
  FOUR falling (.A({r[3], r[2], r[1], r[0]}), .Y({1'b1, 1'b0}));
  FOUR turned (.A({f[2], f[3], f[1], f[0]}), .Y({o[0], o[0]}));
  FOUR part (.A(h), .Y({h[5], h[4]}));
  FOUR tied (.A({1'b1, f[3], 1'b0, s}), .Y({f[0], f[3]}));
  FOUR two (.A({h[7], h[6], f[1], f[0]}), .Y());
  ONE alone (.A(o), .Y(o));
  ONE bit (.A(f[3]), .Y(s));
  ONE tie (.A(1'b1), .Y(o));
  ONE last (.A(h[4]), .Y(1'b0));
endmodule
",
};

/// Names that are reserved words, begin with a digit or have other bytes, in each place of a name, and ports that are
/// declared in another order.
const NAMES: Source = Source {
    cells: b"",
    text: b"`celldefine module \\and (\\input ); input \\input ; endmodule `endcelldefine
module \\top[1] (\\1st , \\2nd ); output \\2nd ; input [7:0] \\1st ; wire _ok, a9$;
wire \\$x ; wire \\back\\slash ; wire \\plain ;
\\and \\u,1 (.\\input (\\1st [7])), u2(\\$x ); endmodule",
    top: b"top[1]",
    written: "`celldefine
module \\and  (\\input );
  input \\input ;
endmodule
`endcelldefine
module \\top[1]  (\\1st , \\2nd );
  input [7:0] \\1st ;
  output \\2nd ;
  wire _ok;
  wire a9$;
  wire \\$x ;
  wire \\back\\slash ;
  wire plain;
  \\and  \\u,1  (.\\input (\\1st [7]));
  \\and  u2 (.\\input (\\$x ));
endmodule
",
};

/// Leaves after other modules, one that has no instance, and modules without ports.
const LATE_LEAVES: Source = Source {
    cells: b"",
    text: b"module s(); NONE v(); t u(); endmodule
`celldefine module TIE(output Y); endmodule `endcelldefine
module t(); endmodule
`celldefine module NONE(); endmodule",
    top: b"s",
    written: "`celldefine
module TIE (Y);
  output Y;
endmodule
module NONE ();
endmodule
`endcelldefine
module s ();
  NONE v ();
  t u ();
endmodule
module t ();
endmodule
",
};

/// No leaf, and ranges of ports that rise and fall.
const NO_LEAF: Source = Source {
    cells: b"",
    text: b"module t(inout [5:2] p, input [2:5] q, output wire r); wire [65535:65535] x; endmodule",
    top: b"t",
    written: "module t (p, q, r);
  inout [5:2] p;
  input [2:5] q;
  output r;
  wire [65535:65535] x;
endmodule
",
};

pub const SOURCES: &[Source] = &[
    TWO_LEVEL,
    JOINED,
    ESCAPED,
    SYNTHESIZED,
    CONNECTIONS,
    NAMES,
    LATE_LEAVES,
    NO_LEAF,
];
