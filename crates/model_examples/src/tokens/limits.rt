//! The lengths up to which names, texts and whole texts are read.

use super::{gives, long};
use psl_lexer::Kind::{Name, Number, Sized, Text};
use psl_lexer::{LexError, tokens};
use std::test::Fail;

#[test]
fn a_name_has_255_bytes_at_most(rt: HostRuntime) -> Result<(), Fail> {
    let alloc = rt.alloc();
    let name = long(alloc, b"", b'a', 255, b"")?;
    assert!(rt; gives(alloc, &name, Ok(&[(Name, 0, 255)])));
    for (first, count, fault) in [
        (b";".as_slice(), 256, LexError::NameTooLong { offset: 1 }),
        (b" mbac_", 250, LexError::LeftOut { offset: 1 }),
        (b" mbac_", 251, LexError::LeftOut { offset: 1 }),
        (b"eventually", 246, LexError::NameTooLong { offset: 0 }),
        (b"until", 251, LexError::NameTooLong { offset: 0 }),
    ] {
        let name = long(alloc, first, b'a', count, b"")?;
        assert!(rt; gives(alloc, &name, Err(fault)), "{first:?}");
    }
    Ok(())
}

#[test]
fn a_report_has_255_bytes_at_most(rt: HostRuntime) -> Result<(), Fail> {
    let alloc = rt.alloc();
    let report = long(alloc, b"\"", b'a', 255, b"\"")?;
    assert!(rt; gives(alloc, &report, Ok(&[(Text, 0, 257)])));
    let report = long(alloc, b"\"", b'a', 256, b"\"")?;
    assert!(rt; gives(alloc, &report, Err(LexError::BadByte { offset: 0 })));
    Ok(())
}

#[test]
fn a_text_of_the_longest_length_is_read(rt: HostRuntime) -> Result<(), Fail> {
    let alloc = rt.alloc();
    let block = long(alloc, b"/*", b'*', 1_048_571, b"*/a")?;
    assert!(rt; gives(alloc, &block, Ok(&[(Name, 1_048_575, 1_048_576)])));
    let line = long(alloc, b"//", b'/', 1_048_574, b"")?;
    assert!(rt; gives(alloc, &line, Ok(&[])));
    let number = long(alloc, b"", b'1', 1_048_576, b"")?;
    assert!(rt; gives(alloc, &number, Ok(&[(Number, 0, 1_048_576)])));
    let sized = long(alloc, b"1'b", b'1', 1_048_573, b"")?;
    assert!(rt; gives(alloc, &sized, Ok(&[(Sized, 0, 1_048_576)])));
    let name = long(alloc, b"", b'a', 1_048_576, b"")?;
    assert!(rt; gives(alloc, &name, Err(LexError::NameTooLong { offset: 0 })));
    let report = long(alloc, b"\"", b'a', 1_048_575, b"")?;
    assert!(rt; gives(alloc, &report, Err(LexError::BadByte { offset: 0 })));
    Ok(())
}

#[test]
fn a_token_a_byte_is_read(rt: HostRuntime) -> Result<(), Fail> {
    let text = long(rt.alloc(), b"", b';', 1_048_576, b"")?;
    assert!(rt; text.len() <= 1_048_576);
    let found = tokens(rt.alloc(), &text)?;
    assert_eq!(rt; found.len(), 1_048_576);
    Ok(())
}
