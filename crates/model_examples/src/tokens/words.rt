//! Each word and each mark, alone and between others, and those that are left out.

use super::{between, gives, short_length};
use psl_lexer::Kind::{Mark, Name, Word};
use psl_lexer::{Key, LexError, Mark as Sign};
use std::alloc::{AllocError, Global};
use std::test::Fail;

// Whether a word is one token, alone and between marks.
fn word_is_one(alloc: Global, text: &[u8], key: Key) -> Result<bool, AllocError> {
    let end = short_length(text);
    let glued = between(alloc, b"(", text, b";")?;
    let want = [
        (Mark(Sign::OpenParenthesis), 0, 1),
        (Word(key), 1, end + 1),
        (Mark(Sign::Semicolon), end + 1, end + 2),
    ];
    Ok(gives(alloc, text, Ok(&[(Word(key), 0, end)])) && gives(alloc, &glued, Ok(&want)))
}

// Whether a mark is one token, alone and between names.
fn mark_is_one(alloc: Global, text: &[u8], mark: Sign) -> Result<bool, AllocError> {
    let end = short_length(text);
    let glued = between(alloc, b"a", text, b"b")?;
    let want = [
        (Name, 0, 1),
        (Mark(mark), 1, end + 1),
        (Name, end + 1, end + 2),
    ];
    Ok(gives(alloc, text, Ok(&[(Mark(mark), 0, end)])) && gives(alloc, &glued, Ok(&want)))
}

#[test]
fn each_word_is_one_token(rt: HostRuntime) -> Result<(), Fail> {
    for (text, key) in [
        (b"vunit".as_slice(), Key::Vunit),
        (b"wire", Key::Wire),
        (b"default", Key::Default),
        (b"clock", Key::Clock),
        (b"posedge", Key::Posedge),
        (b"sequence", Key::Sequence),
        (b"property", Key::Property),
        (b"assert", Key::Assert),
        (b"report", Key::Report),
        (b"always", Key::Always),
        (b"never", Key::Never),
        (b"true", Key::True),
        (b"false", Key::False),
        (b"inf", Key::Inf),
        (b"abort", Key::Abort),
        (b"within", Key::Within),
        (b"until", Key::Until),
        (b"until_", Key::UntilOverlapping),
        (b"before", Key::Before),
        (b"before_", Key::BeforeOverlapping),
        (b"next", Key::Next),
        (b"next_a", Key::NextA),
        (b"next_e", Key::NextE),
        (b"next_event", Key::NextEvent),
        (b"next_event_a", Key::NextEventA),
        (b"next_event_e", Key::NextEventE),
    ] {
        let one = word_is_one(rt.alloc(), text, key)?;
        assert!(rt; one, "{text:?}");
    }
    Ok(())
}

#[test]
fn each_word_with_a_sign_is_one_token(rt: HostRuntime) -> Result<(), Fail> {
    for (text, key) in [
        (b"eventually!".as_slice(), Key::EventuallyStrong),
        (b"until!", Key::UntilStrong),
        (b"until!_", Key::UntilStrongOverlapping),
        (b"before!", Key::BeforeStrong),
        (b"before!_", Key::BeforeStrongOverlapping),
        (b"next!", Key::NextStrong),
        (b"next_a!", Key::NextAStrong),
        (b"next_e!", Key::NextEStrong),
        (b"next_event!", Key::NextEventStrong),
        (b"next_event_a!", Key::NextEventAStrong),
        (b"next_event_e!", Key::NextEventEStrong),
    ] {
        let one = word_is_one(rt.alloc(), text, key)?;
        assert!(rt; one, "{text:?}");
    }
    Ok(())
}

#[test]
fn each_mark_of_a_byte_is_one_token(rt: HostRuntime) -> Result<(), Fail> {
    for (text, mark) in [
        (b"{".as_slice(), Sign::OpenBrace),
        (b"}", Sign::CloseBrace),
        (b"(", Sign::OpenParenthesis),
        (b")", Sign::CloseParenthesis),
        (b"[", Sign::OpenBracket),
        (b"]", Sign::CloseBracket),
        (b";", Sign::Semicolon),
        (b":", Sign::Colon),
        (b",", Sign::Comma),
        (b"!", Sign::Exclamation),
        (b"~", Sign::Tilde),
        (b"&", Sign::And),
        (b"|", Sign::Or),
        (b"^", Sign::Caret),
        (b"<", Sign::Less),
        (b">", Sign::Greater),
        (b"+", Sign::Plus),
        (b"-", Sign::Minus),
        (b"?", Sign::Question),
        (b"=", Sign::Equal),
    ] {
        let one = mark_is_one(rt.alloc(), text, mark)?;
        assert!(rt; one, "{text:?}");
    }
    Ok(())
}

#[test]
fn each_longer_mark_is_one_token(rt: HostRuntime) -> Result<(), Fail> {
    for (text, mark) in [
        (b"[*".as_slice(), Sign::RepeatOpen),
        (b"[+]", Sign::RepeatPlus),
        (b"[->", Sign::GotoOpen),
        (b"[=", Sign::EqualRepeatOpen),
        (b"&&", Sign::AndAnd),
        (b"||", Sign::OrOr),
        (b"==", Sign::EqualEqual),
        (b"!=", Sign::NotEqual),
        (b"<=", Sign::LessEqual),
        (b">=", Sign::GreaterEqual),
        (b"<<", Sign::ShiftLeft),
        (b">>", Sign::ShiftRight),
        (b"->", Sign::Arrow),
        (b"<->", Sign::DoubleArrow),
        (b"|->", Sign::SuffixOverlapping),
        (b"|=>", Sign::SuffixNext),
    ] {
        let one = mark_is_one(rt.alloc(), text, mark)?;
        assert!(rt; one, "{text:?}");
    }
    Ok(())
}

const LEFT_OUT_WORDS: &str =
    "A AF AG AX E EF EG EX F G U W X assume assume_guarantee async_abort boolean const countones cover \
    ended eventually fairness fell forall hdltype in inherit isunknown mutable nondet nondet_vector \
    numeric onehot onehot0 prev restrict restrict_guarantee rose stable string strong sync_abort union \
    vmode vpkg vprop";

const VERILOG_WORDS: &str =
    "and assign automatic begin buf bufif0 bufif1 case casex casez cell cmos config deassign defparam \
    design disable edge else end endcase endconfig endfunction endgenerate endmodule endprimitive \
    endspecify endtable endtask event for force forever fork function generate genvar highz0 highz1 if \
    ifnone incdir include initial inout input instance integer join large liblist library localparam \
    macromodule medium module nand negedge nmos nor noshowcancelled not notif0 notif1 or output \
    parameter pmos primitive pull0 pull1 pulldown pullup pulsestyle_ondetect pulsestyle_onevent rcmos \
    real realtime reg release repeat rnmos rpmos rtran rtranif0 rtranif1 scalared showcancelled signed \
    small specify specparam strong0 strong1 supply0 supply1 table task time tran tranif0 tranif1 tri \
    tri0 tri1 triand trior trireg unsigned use uwire vectored wait wand weak0 weak1 while wor xnor xor";

#[test]
fn each_left_out_word_is_a_fault_but_in_a_longer_name(rt: HostRuntime) -> Result<(), Fail> {
    let alloc = rt.alloc();
    for words in [LEFT_OUT_WORDS, VERILOG_WORDS] {
        for word in words.split_ascii_whitespace() {
            let fault = Err(LexError::LeftOut { offset: 0 });
            assert!(rt; gives(alloc, word.as_bytes(), fault), "{word}");
            let longer = between(alloc, b"", word.as_bytes(), b"$")?;
            let end = short_length(&longer);
            assert!(rt; gives(alloc, &longer, Ok(&[(Name, 0, end)])), "{word}");
        }
    }
    Ok(())
}

#[test]
fn each_left_out_mark_is_a_fault(rt: HostRuntime) -> Result<(), Fail> {
    let alloc = rt.alloc();
    for mark in "=== !== ~& ~| ~^ ^~ <<< >>> +: -: * / % @ .".split_ascii_whitespace() {
        let fault = Err(LexError::LeftOut { offset: 0 });
        assert!(rt; gives(alloc, mark.as_bytes(), fault), "{mark}");
        let glued = between(alloc, b"a", mark.as_bytes(), b"b")?;
        let fault = Err(LexError::LeftOut { offset: 1 });
        assert!(rt; gives(alloc, &glued, fault), "{mark}");
    }
    Ok(())
}
