//! The words that no name of a unit may be.

ghost use Rattle.std.specs.Prelude.{◌≡◌, map, nat_eq};
ghost use Rattle.std.specs.List.{list_any};
ghost use Rattle.std.specs.Cmp.Lexicographic.{pointwise};
ghost use Rattle.verilog_reader.specs.inner.Lines.{is_word};
ghost use Rattle.verilog_reader.specs.inner.Words.{words_language_a, words_language_b, words_left_out_a};
ghost use Rattle.verilog_reader.specs.inner.Words.{words_left_out_b, words_verilog_a, words_verilog_b, words_verilog_c};
ghost use Rattle.verilog_reader.specs.inner.Words.{words_verilog_d, words_verilog_e};

fn is_among(name: &[u8], words: &[&[u8]]) -> bool
    ensures { result ≡ list_any (pointwise nat_eq name.now) (map (λ w. w.now) words.now) }
{
    for word in words {
        if name == *word {
            return true;
        }
    }
    false
}

#[tactic(auto, unfolding(crate::specs::inner::Words::words_language_a))]
fn is_language_a(name: &[u8]) -> bool
    ensures { result ≡ list_any (pointwise nat_eq name.now) words_language_a }
{
    is_among(
        name,
        &[
            b"vunit".as_slice(),
            b"wire",
            b"default",
            b"clock",
            b"posedge",
            b"sequence",
            b"property",
            b"assert",
            b"report",
            b"always",
            b"never",
            b"true",
            b"false",
            b"inf",
            b"abort",
            b"within",
            b"until",
            b"until_",
            b"before",
            b"before_",
            b"next",
            b"next_a",
            b"next_e",
            b"next_event",
        ],
    )
}

#[tactic(auto, unfolding(crate::specs::inner::Words::words_language_b))]
fn is_language_b(name: &[u8]) -> bool
    ensures { result ≡ list_any (pointwise nat_eq name.now) words_language_b }
{
    is_among(name, &[b"next_event_a".as_slice(), b"next_event_e"])
}

#[tactic(auto, unfolding(crate::specs::inner::Words::words_left_out_a))]
fn is_left_out_a(name: &[u8]) -> bool
    ensures { result ≡ list_any (pointwise nat_eq name.now) words_left_out_a }
{
    is_among(
        name,
        &[
            b"A".as_slice(),
            b"AF",
            b"AG",
            b"AX",
            b"E",
            b"EF",
            b"EG",
            b"EX",
            b"F",
            b"G",
            b"U",
            b"W",
            b"X",
            b"assume",
            b"assume_guarantee",
            b"async_abort",
            b"boolean",
            b"const",
            b"countones",
            b"cover",
            b"ended",
            b"eventually",
            b"fairness",
            b"fell",
        ],
    )
}

#[tactic(auto, unfolding(crate::specs::inner::Words::words_left_out_b))]
fn is_left_out_b(name: &[u8]) -> bool
    ensures { result ≡ list_any (pointwise nat_eq name.now) words_left_out_b }
{
    is_among(
        name,
        &[
            b"forall".as_slice(),
            b"hdltype",
            b"in",
            b"inherit",
            b"isunknown",
            b"mutable",
            b"nondet",
            b"nondet_vector",
            b"numeric",
            b"onehot",
            b"onehot0",
            b"prev",
            b"restrict",
            b"restrict_guarantee",
            b"rose",
            b"stable",
            b"string",
            b"strong",
            b"sync_abort",
            b"union",
            b"vmode",
            b"vpkg",
            b"vprop",
        ],
    )
}

#[tactic(auto, unfolding(crate::specs::inner::Words::words_verilog_a))]
fn is_verilog_a(name: &[u8]) -> bool
    ensures { result ≡ list_any (pointwise nat_eq name.now) words_verilog_a }
{
    is_among(
        name,
        &[
            b"and".as_slice(),
            b"assign",
            b"automatic",
            b"begin",
            b"buf",
            b"bufif0",
            b"bufif1",
            b"case",
            b"casex",
            b"casez",
            b"cell",
            b"cmos",
            b"config",
            b"deassign",
            b"defparam",
            b"design",
            b"disable",
            b"edge",
            b"else",
            b"end",
            b"endcase",
            b"endconfig",
            b"endfunction",
            b"endgenerate",
        ],
    )
}

#[tactic(auto, unfolding(crate::specs::inner::Words::words_verilog_b))]
fn is_verilog_b(name: &[u8]) -> bool
    ensures { result ≡ list_any (pointwise nat_eq name.now) words_verilog_b }
{
    is_among(
        name,
        &[
            b"endmodule".as_slice(),
            b"endprimitive",
            b"endspecify",
            b"endtable",
            b"endtask",
            b"event",
            b"for",
            b"force",
            b"forever",
            b"fork",
            b"function",
            b"generate",
            b"genvar",
            b"highz0",
            b"highz1",
            b"if",
            b"ifnone",
            b"incdir",
            b"include",
            b"initial",
            b"inout",
            b"input",
            b"instance",
            b"integer",
        ],
    )
}

#[tactic(auto, unfolding(crate::specs::inner::Words::words_verilog_c))]
fn is_verilog_c(name: &[u8]) -> bool
    ensures { result ≡ list_any (pointwise nat_eq name.now) words_verilog_c }
{
    is_among(
        name,
        &[
            b"join".as_slice(),
            b"large",
            b"liblist",
            b"library",
            b"localparam",
            b"macromodule",
            b"medium",
            b"module",
            b"nand",
            b"negedge",
            b"nmos",
            b"nor",
            b"noshowcancelled",
            b"not",
            b"notif0",
            b"notif1",
            b"or",
            b"output",
            b"parameter",
            b"pmos",
            b"primitive",
            b"pull0",
            b"pull1",
            b"pulldown",
        ],
    )
}

#[tactic(auto, unfolding(crate::specs::inner::Words::words_verilog_d))]
fn is_verilog_d(name: &[u8]) -> bool
    ensures { result ≡ list_any (pointwise nat_eq name.now) words_verilog_d }
{
    is_among(
        name,
        &[
            b"pullup".as_slice(),
            b"pulsestyle_ondetect",
            b"pulsestyle_onevent",
            b"rcmos",
            b"real",
            b"realtime",
            b"reg",
            b"release",
            b"repeat",
            b"rnmos",
            b"rpmos",
            b"rtran",
            b"rtranif0",
            b"rtranif1",
            b"scalared",
            b"showcancelled",
            b"signed",
            b"small",
            b"specify",
            b"specparam",
            b"strong0",
            b"strong1",
            b"supply0",
            b"supply1",
        ],
    )
}

#[tactic(auto, unfolding(crate::specs::inner::Words::words_verilog_e))]
fn is_verilog_e(name: &[u8]) -> bool
    ensures { result ≡ list_any (pointwise nat_eq name.now) words_verilog_e }
{
    is_among(
        name,
        &[
            b"table".as_slice(),
            b"task",
            b"time",
            b"tran",
            b"tranif0",
            b"tranif1",
            b"tri",
            b"tri0",
            b"tri1",
            b"triand",
            b"trior",
            b"trireg",
            b"unsigned",
            b"use",
            b"uwire",
            b"vectored",
            b"wait",
            b"wand",
            b"weak0",
            b"weak1",
            b"while",
            b"wor",
            b"xnor",
            b"xor",
        ],
    )
}

#[tactic(auto, using(crate::proofs::ReservedLists::is_word_lists))]
pub fn is_word(name: &[u8]) -> bool
    ensures { result ≡ is_word name.now }
{
    is_language_a(name)
        || is_language_b(name)
        || is_left_out_a(name)
        || is_left_out_b(name)
        || is_verilog_a(name)
        || is_verilog_b(name)
        || is_verilog_c(name)
        || is_verilog_d(name)
        || is_verilog_e(name)
}
