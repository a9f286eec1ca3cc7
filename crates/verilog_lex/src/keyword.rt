// The reserved words.
ghost use Rattle.std.specs.Prelude.{◌≡◌, map};
ghost use Rattle.std.specs.List.{list_any};
ghost use Rattle.verilog_lex.specs.Keywords.{used_words, other_words, kind_in, is_among, word_kind};

use crate::Kind;

const USED_WORDS: [(&[u8], Kind); 25] = [
    (b"always", Kind::Always),
    (b"assign", Kind::Assign),
    (b"begin", Kind::Begin),
    (b"case", Kind::Case),
    (b"casez", Kind::Casez),
    (b"default", Kind::Default),
    (b"else", Kind::Else),
    (b"end", Kind::BlockEnd),
    (b"endcase", Kind::EndCase),
    (b"endgenerate", Kind::EndGenerate),
    (b"endmodule", Kind::EndModule),
    (b"for", Kind::For),
    (b"generate", Kind::Generate),
    (b"genvar", Kind::Genvar),
    (b"if", Kind::If),
    (b"input", Kind::Input),
    (b"localparam", Kind::LocalParam),
    (b"module", Kind::Module),
    (b"or", Kind::Or),
    (b"output", Kind::Output),
    (b"parameter", Kind::Parameter),
    (b"posedge", Kind::Posedge),
    (b"reg", Kind::Reg),
    (b"signed", Kind::Signed),
    (b"wire", Kind::Wire),
];

const OTHER_WORDS: [&[u8]; 99] = [
    b"and",
    b"automatic",
    b"buf",
    b"bufif0",
    b"bufif1",
    b"casex",
    b"cell",
    b"cmos",
    b"config",
    b"deassign",
    b"defparam",
    b"design",
    b"disable",
    b"edge",
    b"endconfig",
    b"endfunction",
    b"endprimitive",
    b"endspecify",
    b"endtable",
    b"endtask",
    b"event",
    b"force",
    b"forever",
    b"fork",
    b"function",
    b"highz0",
    b"highz1",
    b"ifnone",
    b"incdir",
    b"include",
    b"initial",
    b"inout",
    b"instance",
    b"integer",
    b"join",
    b"large",
    b"liblist",
    b"library",
    b"macromodule",
    b"medium",
    b"nand",
    b"negedge",
    b"nmos",
    b"nor",
    b"noshowcancelled",
    b"not",
    b"notif0",
    b"notif1",
    b"pmos",
    b"primitive",
    b"pull0",
    b"pull1",
    b"pulldown",
    b"pullup",
    b"pulsestyle_ondetect",
    b"pulsestyle_onevent",
    b"rcmos",
    b"real",
    b"realtime",
    b"release",
    b"repeat",
    b"rnmos",
    b"rpmos",
    b"rtran",
    b"rtranif0",
    b"rtranif1",
    b"scalared",
    b"showcancelled",
    b"small",
    b"specify",
    b"specparam",
    b"strong0",
    b"strong1",
    b"supply0",
    b"supply1",
    b"table",
    b"task",
    b"time",
    b"tran",
    b"tranif0",
    b"tranif1",
    b"tri",
    b"tri0",
    b"tri1",
    b"triand",
    b"trior",
    b"trireg",
    b"unsigned",
    b"use",
    b"uwire",
    b"vectored",
    b"wait",
    b"wand",
    b"weak0",
    b"weak1",
    b"while",
    b"wor",
    b"xnor",
    b"xor",
];

/// The kind that a table gives a text.
pub fn kind_in(table: &[(&[u8], Kind)], text: &[u8]) -> Option<Kind>
    ensures { result ≡ kind_in (map (λ e. (e.0.now, e.1)) table.now) text.now }
{
    for (known, kind) in table {
        if *known == text {
            return Some(*kind);
        }
    }
    None
}

// Whether a text is one of these words.
fn is_among(words: &[&[u8]], text: &[u8]) -> bool
    ensures { result ≡ is_among (map (λ w. w.now) words.now) text.now }
{
    for word in words {
        if *word == text {
            return true;
        }
    }
    false
}

// The kind of a reserved word that has its own.
#[tactic(auto, unfolding(crate::specs::Keywords::used_words))]
fn used_word(text: &[u8]) -> Option<Kind>
    ensures { result ≡ kind_in used_words text.now }
{
    kind_in(&USED_WORDS, text)
}

// Whether a word is reserved, without a kind of its own.
#[tactic(auto, unfolding(crate::specs::Keywords::other_words))]
fn is_other_word(text: &[u8]) -> bool
    ensures { result ≡ is_among other_words text.now }
{
    is_among(&OTHER_WORDS, text)
}

/// The kind of a word, reserved or not; case matters.
#[tactic(auto, unfolding(crate::specs::Keywords::word_kind))]
pub fn word_kind(text: &[u8]) -> Kind
    ensures { result ≡ word_kind text.now }
{
    match used_word(text) {
        Some(kind) => kind,
        None => {
            if is_other_word(text) {
                Kind::Reserved
            } else {
                Kind::Word
            }
        }
    }
}
