//! Core sequences and base formulas come apart as they were built.

use psl_model::Expr;
use psl_rewrite::{Base, CoreSere, Subbase, Subcore};
use std::alloc::{AllocError, Global};

// {a;b}[*3]
fn three_copies(alloc: Global) -> Result<Subcore, AllocError> {
    let left = Subcore::new(alloc, CoreSere::Bool(Expr::Whole(0)))?;
    let right = Subcore::new(alloc, CoreSere::Bool(Expr::Whole(1)))?;
    let body = Subcore::new(alloc, CoreSere::Then(left, right))?;
    Subcore::new(alloc, CoreSere::Power(body, 3))
}

// a -> next![2] b
fn implied_later(alloc: Global) -> Result<Subbase, AllocError> {
    let body = Subbase::new(alloc, Base::Bool(Expr::Whole(1)))?;
    let next = Base::Next {
        strong: true,
        count: 2,
        body,
    };
    let later = Subbase::new(alloc, next)?;
    Subbase::new(alloc, Base::Implies(Expr::Whole(0), later))
}

fn is_core_signal(core: &CoreSere, place: usize) -> bool {
    matches!(core, CoreSere::Bool(Expr::Whole(found)) if *found == place)
}

fn is_one_after_another(core: &CoreSere) -> bool {
    match core {
        CoreSere::Then(left, right) => {
            is_core_signal(left.get(), 0) && is_core_signal(right.get(), 1)
        }
        _ => false,
    }
}

fn is_three_of_them(core: &CoreSere) -> bool {
    match core {
        CoreSere::Power(body, 3) => is_one_after_another(body.get()),
        _ => false,
    }
}

fn is_b_later(base: &Base) -> bool {
    match base {
        Base::Next {
            strong: true,
            count: 2,
            body,
        } => matches!(body.get(), Base::Bool(Expr::Whole(1))),
        _ => false,
    }
}

fn is_implied_later(base: &Base) -> bool {
    match base {
        Base::Implies(Expr::Whole(0), body) => is_b_later(body.get()),
        _ => false,
    }
}

fn a_power_comes_apart(alloc: Global) -> bool {
    match three_copies(alloc) {
        Ok(power) => is_three_of_them(&power.into_inner()),
        Err(_) => false,
    }
}

fn an_implication_comes_apart(alloc: Global) -> bool {
    match implied_later(alloc) {
        Ok(whole) => is_implied_later(whole.get()),
        Err(_) => false,
    }
}

#[test]
fn trees_come_apart_as_they_were_built(rt: HostRuntime) {
    assert!(rt; a_power_comes_apart(rt.alloc()));
    assert!(rt; an_implication_comes_apart(rt.alloc()));
}
