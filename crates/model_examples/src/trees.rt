//! Names and trees come apart as they were built, and are equal where they say the same.

use psl_model::{BinOp, Expr, Formula, Name, Sere, Subexpr, Subformula, Subsere, UnOp};
use std::collections::HashSet;
use std::test::Fail;

// a[*2:inf]
#[test]
fn a_sequence_comes_apart_as_it_was_built(rt: HostRuntime) -> Result<(), Fail> {
    let a = Subsere::new(rt.alloc(), Sere::Bool(Expr::Whole(7)))?;
    let many = Subsere::new(rt.alloc(), Sere::Repeat(a, 2, None))?;
    let Sere::Repeat(a, 2, None) = many.into_inner() else {
        return Err("a repetition".into());
    };
    assert!(rt; matches!(a.get(), Sere::Bool(Expr::Whole(7))));
    Ok(())
}

// {a[->1]; b}
#[test]
fn a_copied_sequence_is_equal(rt: HostRuntime) -> Result<(), Fail> {
    let goto = Subsere::new(rt.alloc(), Sere::Goto(Expr::Whole(7), 1, Some(1)))?;
    let next = Subsere::new(rt.alloc(), Sere::Bool(Expr::Whole(8)))?;
    let sere = Sere::Then(goto, next);
    let copy = sere.copy(rt.alloc())?;
    assert!(rt; copy == sere);
    assert!(rt; copy != Sere::Goto(Expr::Whole(7), 1, None));
    Ok(())
}

// a[2] + 8'd200
#[test]
fn an_expression_comes_apart_as_it_was_built(rt: HostRuntime) -> Result<(), Fail> {
    let bit = Subexpr::new(rt.alloc(), Expr::Bit(1, 2))?;
    let number = Subexpr::new(rt.alloc(), Expr::Sized(8, 200))?;
    let sum = Subexpr::new(rt.alloc(), Expr::Binary(BinOp::Add, bit, number))?;
    let Expr::Binary(BinOp::Add, bit, number) = sum.into_inner() else {
        return Err("a sum".into());
    };
    assert!(rt; matches!(bit.get(), Expr::Bit(1, 2)));
    assert!(rt; matches!(number.get(), Expr::Sized(8, 200)));
    Ok(())
}

#[test]
fn expressions_are_equal_where_their_trees_are(rt: HostRuntime) -> Result<(), Fail> {
    let not = Expr::Unary(UnOp::Not, Subexpr::new(rt.alloc(), Expr::Whole(1))?);
    let flip = Expr::Unary(UnOp::Flip, Subexpr::new(rt.alloc(), Expr::Whole(1))?);
    let mut seen = HashSet::new(rt.alloc());
    assert!(rt; seen.insert(not)?);
    assert!(rt; !seen.contains(&flip));
    assert!(rt; seen.contains(&Expr::Unary(UnOp::Not, Subexpr::new(rt.alloc(), Expr::Whole(1))?)));
    Ok(())
}

// !a
#[test]
fn a_formula_comes_apart_as_it_was_built(rt: HostRuntime) -> Result<(), Fail> {
    let body = Subformula::new(rt.alloc(), Formula::Bool(Expr::Whole(7)))?;
    let not = Subformula::new(rt.alloc(), Formula::Not(body))?;
    let Formula::Not(body) = not.into_inner() else {
        return Err("a negation".into());
    };
    assert!(rt; matches!(body.get(), Formula::Bool(Expr::Whole(7))));
    Ok(())
}

#[test]
fn a_name_keeps_its_bytes_and_equals_its_copy_alone(rt: HostRuntime) -> Result<(), Fail> {
    let name = Name::new(rt.alloc(), b"req_1")?;
    assert_eq!(rt; name.bytes(), b"req_1".as_slice());
    let copy = name.copy(rt.alloc())?;
    assert_eq!(rt; copy.bytes(), b"req_1".as_slice());
    assert!(rt; copy == name);
    for other in [b"req_2".as_slice(), b"req_", b"req_10", b""] {
        assert!(rt; Name::new(rt.alloc(), other)? != name);
    }
    Ok(())
}

#[test]
fn a_set_finds_a_name_by_its_bytes(rt: HostRuntime) -> Result<(), Fail> {
    let mut names = HashSet::new(rt.alloc());
    assert!(rt; names.insert(Name::new(rt.alloc(), b"ack")?)?);
    assert!(rt; names.contains(&Name::new(rt.alloc(), b"ack")?));
    assert!(rt; !names.contains(&Name::new(rt.alloc(), b"req")?));
    Ok(())
}
