//! The first fault of a text, by its offset. The offsets were counted by hand.

use crate::pieces::{fault_of, reads};
use std::test::Fail;
use vcd_reader::VcdError;

fn syntax(offset: u64) -> Option<VcdError> {
    Some(VcdError::VcdSyntax { offset })
}

fn back(offset: u64) -> Option<VcdError> {
    Some(VcdError::TimeGoesBack { offset })
}

// Declares one variable of four bits, `a`, under the identifier `!`; it has 47 bytes.
const HEAD: &str = "$var reg 4 ! a [3:0] $end $enddefinitions $end ";

#[test]
fn a_change_breaks_a_rule_at_its_token(rt: HostRuntime) -> Result<(), Fail> {
    assert_eq!(rt; HEAD.len(), 47);
    for (tail, wanted) in [
        ("#2 b1 ! #1 1?", back(55)),
        ("#2 b1 ? #1 1!", syntax(53)),
        ("b10101 !", syntax(54)),
        ("b10101", syntax(53)),
        ("b102 !", syntax(47)),
        ("b !", syntax(47)),
        ("1", syntax(47)),
        ("#", syntax(47)),
        ("#1x", syntax(47)),
        ("#18446744073709551615 #18446744073709551616", syntax(69)),
        ("$comment", syntax(55)),
        ("$var", syntax(47)),
        ("U!", syntax(47)),
    ] {
        let text = format!(in rt.alloc(); "{HEAD}{tail}")?;
        assert_eq!(rt; fault_of(rt.alloc(), text.as_bytes()), wanted);
    }
    Ok(())
}

#[test]
fn a_declaration_breaks_a_rule_at_its_token(rt: HostRuntime) -> Result<(), Fail> {
    for (text, wanted) in [
        ("", syntax(0)),
        (" \r\n", syntax(3)),
        ("$upscope $end", syntax(0)),
        ("$scope $end $end $end", syntax(12)),
        ("$scope $end m $end $upscope $end $upscope", syntax(33)),
        ("$scope module m x", syntax(16)),
        ("$var wire 0 ! a $end", syntax(10)),
        ("$var wire 65537 ! a $end", syntax(10)),
        ("$var wire 65536 ! a $end $var wire 1 ! b $end", syntax(37)),
        ("$var wire 1 ! $end", syntax(14)),
        ("$var wire 1 ! a", syntax(15)),
        ("$enddefinitions", syntax(15)),
        ("$enddefinitions x", syntax(16)),
        ("1!", syntax(0)),
        ("#0", syntax(0)),
        ("$enddefinitions $end 1!", syntax(21)),
    ] {
        assert_eq!(rt; fault_of(rt.alloc(), text.as_bytes()), wanted);
    }
    Ok(())
}

#[test]
fn lawful_changes_are_read(rt: HostRuntime) -> Result<(), Fail> {
    for (tail, changes) in [
        ("", 0usize),
        ("1!", 1),
        ("#1 b01xZ ! #1 1!", 2),
        ("B1 ! X! z! bX !", 4),
        ("#0 #0 #18446744073709551615", 0),
        ("r1.5 ? s$end $end $comment #x $end z!", 1),
        (
            "$dumpvars 0! $end $dumpoff x! $end $dumpon 1! $end $dumpall 1! $end",
            4,
        ),
        ("#3 0! 1! b10 ! #4", 3),
    ] {
        let text = format!(in rt.alloc(); "{HEAD}{tail}")?;
        assert!(rt; reads(rt.alloc(), text.as_bytes(), 1, changes));
    }
    Ok(())
}
