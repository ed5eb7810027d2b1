ghost use Rattle.std.specs.Prelude.{◌≡◌};
ghost use Rattle.word_table.specs.Reserved.{reserved_texts};

use crate::table::Words;
use crate::words;

/// The table of the 124 reserved words of a netlist.
///
/// The list is this project's own; `specs/Reserved.antt` spells it out.
#[tactic(auto, unfolding(crate::specs::Reserved::reserved_texts))]
pub fn reserved_words() -> Words<124>
    ensures { result ≡ reserved_texts }
{
    const TABLE: &[&[u8]] = words![
        b"always" b"and" b"assign" b"automatic" b"begin" b"buf" b"bufif0" b"bufif1" b"case"
        b"casex" b"casez" b"cell" b"cmos" b"config" b"deassign" b"default" b"defparam" b"design"
        b"disable" b"edge" b"else" b"end" b"endcase" b"endconfig" b"endfunction" b"endgenerate"
        b"endmodule" b"endprimitive" b"endspecify" b"endtable" b"endtask" b"event" b"for" b"force"
        b"forever" b"fork" b"function" b"generate" b"genvar" b"highz0" b"highz1" b"if" b"ifnone"
        b"incdir" b"include" b"initial" b"inout" b"input" b"instance" b"integer" b"join" b"large"
        b"liblist" b"library" b"localparam" b"macromodule" b"medium" b"module" b"nand" b"negedge"
        b"nmos" b"nor" b"noshowcancelled" b"not" b"notif0" b"notif1" b"or" b"output" b"parameter"
        b"pmos" b"posedge" b"primitive" b"pull0" b"pull1" b"pulldown" b"pullup"
        b"pulsestyle_ondetect" b"pulsestyle_onevent" b"rcmos" b"real" b"realtime" b"reg" b"release"
        b"repeat" b"rnmos" b"rpmos" b"rtran" b"rtranif0" b"rtranif1" b"scalared" b"showcancelled"
        b"signed" b"small" b"specify" b"specparam" b"strong0" b"strong1" b"supply0" b"supply1"
        b"table" b"task" b"time" b"tran" b"tranif0" b"tranif1" b"tri" b"tri0" b"tri1" b"triand"
        b"trior" b"trireg" b"unsigned" b"use" b"uwire" b"vectored" b"wait" b"wand" b"weak0"
        b"weak1" b"while" b"wire" b"wor" b"xnor" b"xor"
    ];
    Words::new(TABLE)
}
