//! Labels are sets of literals, in order.

use crate::tables::label_of;
use auto_core::{Label, Literal};
use std::test::Fail;

const NOT_A: Literal = Literal {
    symbol: 0,
    positive: false,
};

const B: Literal = Literal {
    symbol: 1,
    positive: true,
};

const NOT_B: Literal = Literal {
    symbol: 1,
    positive: false,
};

#[test]
fn a_label_without_literals_holds(rt: HostRuntime) {
    let label = Label::new(rt.alloc());
    assert!(rt; label.holds(&[]));
}

#[test]
fn a_label_is_a_set_in_order(rt: HostRuntime) -> Result<(), Fail> {
    let label = label_of(rt.alloc(), &[B, NOT_A, B])?;
    assert!(rt; label.literals() == [NOT_A, B].as_slice());
    Ok(())
}

#[test]
fn a_label_that_is_put_into_another_is_joined_with_it(rt: HostRuntime) -> Result<(), Fail> {
    let label = label_of(rt.alloc(), &[B, NOT_A])?;
    let mut more = label_of(rt.alloc(), &[NOT_B])?;
    more.put_all(&label)?;
    assert!(rt; more.literals() == [NOT_A, NOT_B, B].as_slice());
    assert!(rt; more != label);
    Ok(())
}
