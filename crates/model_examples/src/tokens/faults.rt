//! The first fault of a text, and its offset.

use super::gives;
use psl_lexer::LexError;
use std::test::Fail;

#[test]
fn where_nothing_begins_the_byte_is_bad(rt: HostRuntime) {
    for (text, offset) in [
        (b"/*".as_slice(), 0),
        (b"a /*/", 2),
        (b"a /* b *", 2),
        (b"\"", 0),
        (b"\"a", 0),
        (b"a\"b// c", 1),
        (b"\"a\\\"", 0),
        (b"\"\n\"", 0),
        (b"\"\x7f\"", 0),
        (b"\"\x80\"", 0),
        (b"8'q1", 1),
        (b"8'h", 1),
        (b"8'hg", 1),
        (b"8 'h1", 2),
        (b"8'h 1", 1),
        (b"8'", 1),
        (b"8'd1'", 4),
        (b"a#b", 1),
        (b"`a", 0),
        (b"\\a", 0),
        (b"\x0b", 0),
        (b"\x80", 0),
        (b"$a", 0),
        (b"a \0", 2),
        (b"/* * */`", 7),
    ] {
        let fault = LexError::BadByte { offset };
        assert!(rt; gives(rt.alloc(), text, Err(fault)), "{text:?}");
    }
}

#[test]
fn what_is_left_out_is_told_by_its_first_byte(rt: HostRuntime) {
    for (text, offset) in [
        (b"[ *".as_slice(), 2),
        (b"a===b", 1),
        (b"a ^~b", 2),
        (b"a[3+:2]", 3),
        (b"a*/", 1),
        (b"**/", 0),
        (b"mbac_", 0),
        (b"a mbac_x", 2),
        (b"eventually", 0),
        (b"eventually !", 0),
        (b"a strong_ end#", 10),
        (b"a; endmodule #", 3),
    ] {
        let fault = LexError::LeftOut { offset };
        assert!(rt; gives(rt.alloc(), text, Err(fault)), "{text:?}");
    }
}

#[test]
fn a_fault_is_told_with_its_offset(rt: HostRuntime) -> Result<(), Fail> {
    for (fault, want) in [
        (LexError::BadByte { offset: 3 }, "bad byte at 3"),
        (
            LexError::LeftOut { offset: 0 },
            "left-out word or mark at 0",
        ),
        (LexError::NameTooLong { offset: 17 }, "name too long at 17"),
        (LexError::OutOfMemory, "out of memory"),
    ] {
        assert_eq!(rt; format!(in rt.alloc(); "{fault}")?.as_str(), want);
    }
    Ok(())
}
