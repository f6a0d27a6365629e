//! The checker with its lines in another order, cut off, or with blanks more or less.

use crate::checker::{LINES, changed, is_read_back, line, refused_at};
use std::alloc::{AllocError, Global};
use std::test::Fail;

// The line at which the checker is refused where this line and the next are exchanged.
static EXCHANGED: [u64; 11] = [1, 2, 3, 4, 5, 6, 8, 8, 9, 10, 11];

// The line at which it is refused without this line.
static LEFT_OUT: [u64; 12] = [1, 2, 3, 4, 5, 6, 10, 8, 9, 10, 11, 12];

fn whole(alloc: Global) -> Result<Vec<u8>, AllocError> {
    changed(alloc, 0, b"")
}

/// Two pieces, one behind the other.
fn joined(alloc: Global, first: &[u8], second: &[u8]) -> Result<Vec<u8>, AllocError> {
    let mut text = Vec::from_slice(alloc, first)?;
    text.extend_from_slice(second)?;
    Ok(text)
}

/// The checker, its line of this number and the next one exchanged.
fn exchanged(alloc: Global, number: usize) -> Result<Vec<u8>, AllocError> {
    let mut text = Vec::new(alloc);
    for place in 1..13 {
        if place == number {
            text.extend_from_slice(line(place + 1))?;
        } else if place == number.wrapping_add(1) {
            text.extend_from_slice(line(number))?;
        } else {
            text.extend_from_slice(line(place))?;
        }
    }
    Ok(text)
}

/// The number of the line in which a byte of the checker stands.
fn line_at(text: &[u8], place: usize) -> u64 {
    let mut number = 1;
    for byte in text.iter().take(place) {
        if *byte == b'\n' {
            number = 1u64.saturating_add(number);
        }
    }
    number
}

#[test]
fn a_checker_is_read_and_printed_as_it_was(rt: HostRuntime) -> Result<(), Fail> {
    let text = whole(rt.alloc())?;
    assert!(rt; is_read_back(rt.alloc(), &text, 1));
    assert!(rt; is_read_back(rt.alloc(), b"", 0));
    Ok(())
}

#[test]
fn lines_in_another_order_are_refused(rt: HostRuntime) -> Result<(), Fail> {
    for place in 0..11 {
        let text = exchanged(rt.alloc(), place + 1)?;
        assert_eq!(rt;
            refused_at(rt.alloc(), &text),
            Some(EXCHANGED[place]),
            "{place}"
        );
    }
    Ok(())
}

#[test]
fn a_line_that_is_left_out_or_comes_twice_is_refused(rt: HostRuntime) -> Result<(), Fail> {
    for place in 0..12 {
        let text = changed(rt.alloc(), place + 1, b"")?;
        assert_eq!(rt;
            refused_at(rt.alloc(), &text),
            Some(LEFT_OUT[place]),
            "{place}"
        );
        let twice = joined(rt.alloc(), LINES[place], LINES[place])?;
        let text = changed(rt.alloc(), place + 1, &twice)?;
        assert_eq!(rt;
            refused_at(rt.alloc(), &text),
            Some(place as u64 + 2),
            "{place}"
        );
    }
    Ok(())
}

#[test]
fn a_text_that_ends_too_early_is_refused_behind_its_last_line(rt: HostRuntime) -> Result<(), Fail> {
    let text = whole(rt.alloc())?;
    for count in 1..text.len() {
        let wanted = line_at(&text, count);
        assert_eq!(rt;
            refused_at(rt.alloc(), &text[..count]),
            Some(wanted),
            "{count}"
        );
    }
    Ok(())
}

#[test]
fn a_blank_more_or_less_is_refused_in_its_line(rt: HostRuntime) -> Result<(), Fail> {
    let text = whole(rt.alloc())?;
    for place in 0..text.len() {
        if text[place] == b' ' {
            let wanted = Some(line_at(&text, place));
            let less = joined(rt.alloc(), &text[..place], &text[place + 1..])?;
            assert_eq!(rt; refused_at(rt.alloc(), &less), wanted, "{place}");
            let more = joined(rt.alloc(), &text[..place + 1], &text[place..])?;
            assert_eq!(rt; refused_at(rt.alloc(), &more), wanted, "{place}");
        }
    }
    Ok(())
}

#[test]
fn modules_have_different_names(rt: HostRuntime) -> Result<(), Fail> {
    let first = whole(rt.alloc())?;
    let header = b"module mbac_u_2 (mbac_clk, mbac_rst, mbac_eot, a, mbac_fail);\n";
    let other = changed(rt.alloc(), 1, header)?;
    let two = joined(rt.alloc(), &first, &other)?;
    assert!(rt; is_read_back(rt.alloc(), &two, 2));
    let again = joined(rt.alloc(), &first, &first)?;
    assert_eq!(rt; refused_at(rt.alloc(), &again), Some(13));
    let begun = joined(rt.alloc(), &first, line(1))?;
    assert_eq!(rt; refused_at(rt.alloc(), &begun), Some(13));
    let third = joined(rt.alloc(), &two, &first)?;
    assert_eq!(rt; refused_at(rt.alloc(), &third), Some(25));
    Ok(())
}
