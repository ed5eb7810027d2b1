//! The tables of netlists, with the ids that no report shows.
mod shown;

use samples::texts::{COUNTER, TWO_LEVELS};
use shown::{empty_table, shown, shown_over};
use std::test::Fail;

/// Leaf cells: INV has ids 0, BUF 1, and BUS 2, whose ports are of two and four bits.
const CELLS: &[u8] =
    b"module INV(input A, output Y); endmodule module BUF(input A, output Y); endmodule \
module BUS(input [1:0] A, output [0:3] Y); endmodule";

/// Texts with the tables that they give over the cells.
const TABLES: &[(&[u8], &str)] = &[
    (b"", ""),
    (b"module t; endmodule", "3 t () [] {}"),
    (
        b"module t(a, y); output y; input a; INV u(.A(a), .Y(y)); endmodule",
        "3 t (1 input, 0 output) [0 y, 1 a] {0 u:0(1.0, 0.0)}",
    ),
    (
        b"module t(input [3:0] a, b, output c); wire d; endmodule",
        "3 t (0 input, 1 input, 2 output) [0 a[3:0], 1 b[3:0], 2 c, 3 d] {}",
    ),
    (
        b"module t(); INV u(m, n), v(n, m), w(.Y(o)); endmodule",
        "3 t () [0 m, 1 n, 2 o] {0 u:0(0.0, 1.0), 1 v:0(1.0, 0.0), 2 w:0(open, 2.0)}",
    ),
    (
        b"module t(); INV u(), v(,a), w(.A(), .Y(a)), x(a); endmodule",
        "3 t () [0 a] {0 u:0(open, open), 1 v:0(open, 0.0), 2 w:0(open, 0.0), 3 x:0(0.0, open)}",
    ),
    (
        b"module t(); wire [7:4] f; wire [4:7] r; BUS u(f[5:4], r), v(.Y({f[7], r[4:5], 1'b1}), .A({r[7], f[6]})); endmodule",
        "3 t () [0 f[7:4], 1 r[4:7]] {0 u:2(0.2 0.3, 1.0 1.1 1.2 1.3), 1 v:2(1.3 0.1, 0.0 1.0 1.1 =1)}",
    ),
    (
        b"module t(); BUS u({a, b}, 4'd10), v(2'b01, {2'd3, {c, {1'b0}}}); endmodule",
        "3 t () [0 a, 1 b, 2 c] {0 u:2(0.0 1.0, =1 =0 =1 =0), 1 v:2(=0 =1, =1 =1 2.0 =0)}",
    ),
    (
        b"module t(); wire [0:0] a; wire [2:2] b; INV u(a[0:0], b), v(b[2], a); endmodule",
        "3 t () [0 a[0:0], 1 b[2:2]] {0 u:0(0.0, 1.0), 1 v:0(1.0, 0.0)}",
    ),
    (
        b"module t(q); s u(q); output q; wire q; endmodule module s(input a); endmodule",
        "LateDeclaration @28 q",
    ),
    (
        b"module t(q); output q; wire q; s u(q), v(.a(q)); endmodule module s(input a); endmodule",
        "3 t (0 output) [0 q] {0 u:4(0.0), 1 v:4(0.0)} 4 s (0 input) [0 a] {}",
    ),
    (
        b"module t(input wire a); wire a; endmodule module s(input wire b); wire b; endmodule",
        "3 t (0 input) [0 a] {} 4 s (0 input) [0 b] {}",
    ),
    (
        b"`celldefine module c(a); wire a; input a; endmodule `endcelldefine module t; c u(x); endmodule",
        "3 c leaf (0 input) [0 a] {} 4 t () [0 x] {0 u:3(0.0)}",
    ),
    (
        b"`celldefine module INV(A, Y); output Y; input A; endmodule module INV(input A, output Y); endmodule",
        "",
    ),
    (
        b"`celldefine module c(input a); endmodule module c(input a); endmodule `endcelldefine module t; endmodule",
        "3 c leaf (0 input) [0 a] {} 4 t () [] {}",
    ),
    (
        b"module t(); BUF \\a/b (.A(\\c[0] ), .Y(c)); endmodule",
        "3 t () [0 c[0], 1 c] {0 a/b:1(0.0, 1.0)}",
    ),
    (
        b"module b(input i); c u(i); endmodule module a(input i); b u(i); endmodule module c(input i); endmodule",
        "3 b (0 input) [0 i] {0 u:5(0.0)} 4 a (0 input) [0 i] {0 u:3(0.0)} 5 c (0 input) [0 i] {}",
    ),
    // the last three names have one number, and so one slot in a map of places
    (
        b"module t(); wire a, b, c, d, e, f, g, h, aacauaaapaaaebagagacasmq, ebagagacasmqaacauaaapaaa, \
ebagagacasmqebagagacasmq; INV u(ebagagacasmqaacauaaapaaa, ebagagacasmqebagagacasmq), v(aacauaaapaaaebagagacasmq, h); endmodule",
        "3 t () [0 a, 1 b, 2 c, 3 d, 4 e, 5 f, 6 g, 7 h, 8 aacauaaapaaaebagagacasmq, 9 ebagagacasmqaacauaaapaaa, \
10 ebagagacasmqebagagacasmq] {0 u:0(9.0, 10.0), 1 v:0(8.0, 7.0)}",
    ),
];

#[test]
fn texts_give_tables(rt: HostRuntime) -> Result<(), Fail> {
    for (text, table) in TABLES {
        let made = shown(rt.alloc(), CELLS, text)?;
        assert_eq!(rt; made.as_str(), *table);
    }
    Ok(())
}

/// Two leaf cells with ids 0 and 1.
const TWO_CELLS: &[u8] = b"`celldefine
module INV (A, Y); input A; output Y; endmodule
module BUF (A, Y); input A; output Y; endmodule
`endcelldefine
";

const RISING_BUS: &[u8] = b"module C7 (input [0:6] D); endmodule";

const JOINED: &[u8] = b"module t(a,b); input [3:0] a,b; C7 u(.D({a[0],4'h3,b[2:1]})); endmodule";

const TOO_NARROW: &[u8] = b"module t(a,b); input [3:0] a,b; C7 u(.D({a[0],4'h3,b[2]})); endmodule";

const ESCAPED: &[u8] = b"module t (); wire \\a/b ; wire \\wire ; wire \\bus[3] ; wire [3:0] bus; \
INV \\x.y (.A(\\bus[3] ), .Y(bus[3])); endmodule";

const SYNTHESIS_CELLS: &[u8] = b"module XOR2(input A, input B, output Y); endmodule
module AND2(input A, input B, output Y); endmodule
module DFF2(input CK, input [1:0] D, output [1:0] Q, input SE); endmodule
";

/// Cells and texts with the tables that the texts give over them, or the first rule that is broken.
const WORKED: &[(&[u8], &[u8], &str)] = &[
    (
        b"",
        TWO_LEVELS,
        "0 INV leaf (0 input, 1 output) [0 A, 1 Y] {} 1 BUF leaf (0 input, 1 output) [0 A, 1 Y] {} \
2 pair (0 input, 1 output) [0 a, 1 y, 2 m] {0 u1:0(0.0, 2.0), 1 u2:0(2.0, 1.0)} \
3 top (0 input, 1 output) [0 i, 1 o, 2 w] {0 p:2(0.0, 2.0), 1 q:2(2.0, 1.0)}",
    ),
    (TWO_CELLS, TWO_CELLS, ""),
    (
        TWO_CELLS,
        b"module t(); INV u(.A(n)); wire n; endmodule",
        "LateDeclaration @31 n",
    ),
    (
        TWO_CELLS,
        b"module t(); INV a(.A(a)); endmodule",
        "NameTaken @21 a",
    ),
    (
        RISING_BUS,
        JOINED,
        "1 t (0 input, 1 input) [0 a[3:0], 1 b[3:0]] {0 u:0(0.3 =0 =0 =1 =1 1.1 1.2)}",
    ),
    (RISING_BUS, TOO_NARROW, "WidthMismatch @40 D"),
    (
        TWO_CELLS,
        ESCAPED,
        "2 t () [0 a/b, 1 wire, 2 bus[3], 3 bus[3:0]] {0 x.y:0(2.0, 3.0)}",
    ),
    (
        SYNTHESIS_CELLS,
        COUNTER,
        "3 cnt (1 input, 2 input, 3 output) [0 _0_, 1 clk, 2 en, 3 q[1:0], 4 d$x[1:0]] \
{0 _1_:0(3.1, 2.0, 4.1), 1 _2_:1(3.1, 2.0, 0.0), 2 _3_:0(3.0, 0.0, 4.0), \
3 r:2(1.0, 4.0 4.1, 3.0 3.1, =0)}",
    ),
    (
        b"",
        b"module a(); b x(); endmodule module b(); a y(); endmodule",
        "Recursive @7 a",
    ),
    (
        b"",
        b"module t(); wire [4096:0] n; endmodule",
        "TooWide @18 n",
    ),
    (
        b"",
        b"module t(); wire [65536:65535] n; endmodule",
        "BadIndex @18 n",
    ),
];

#[test]
fn worked_examples_give_tables(rt: HostRuntime) -> Result<(), Fail> {
    for (cells, text, table) in WORKED {
        let made = shown(rt.alloc(), cells, text)?;
        assert_eq!(rt; made.as_str(), *table);
    }
    Ok(())
}

#[test]
fn ids_end_at_the_largest_number(rt: HostRuntime) -> Result<(), Fail> {
    let cases: [(u32, &[u8], &str); 4] = [
        (4_294_967_295, b"", " next 4294967295"),
        (4_294_967_295, b"module t; endmodule", "TooManyModules @7 t"),
        (
            4_294_967_294,
            b"module s; endmodule module t; endmodule",
            "TooManyModules @27 t",
        ),
        (
            4_294_967_294,
            b"module s; endmodule",
            "4294967294 s leaf () [] {} next 4294967295",
        ),
    ];
    for (next, text, made) in &cases {
        let table = empty_table(rt.alloc(), *next);
        let got = shown_over(rt.alloc(), &table, text, true)?;
        assert_eq!(rt; got.as_str(), *made);
    }
    Ok(())
}
