use psl_model::{Expr, Formula, Reach, Sere, Subformula};
use simple_subset::{Rule, check, is_boolean};
use std::alloc::{AllocError, Global};
use std::test::Fail;

fn a() -> Formula {
    Formula::Bool(Expr::Whole(0))
}

fn b() -> Formula {
    Formula::Bool(Expr::Whole(1))
}

fn always(alloc: Global, body: Formula) -> Result<Formula, AllocError> {
    Ok(Formula::Always(Subformula::new(alloc, body)?))
}

fn until(left: Subformula, overlap: bool, right: Subformula) -> Formula {
    Formula::Until {
        strong: overlap,
        overlap,
        left,
        right,
    }
}

fn before(left: Subformula, overlap: bool, right: Subformula) -> Formula {
    Formula::Before {
        strong: overlap,
        overlap,
        left,
        right,
    }
}

fn next(reach: Reach, body: Subformula) -> Formula {
    Formula::Next {
        strong: false,
        reach,
        low: 2,
        high: 2,
        body,
    }
}

fn event(reach: Reach, body: Subformula) -> Formula {
    Formula::Event {
        on: Expr::Whole(1),
        strong: true,
        reach,
        low: 2,
        high: 2,
        body,
    }
}

// each rule, and whether the operand that breaks it is the right one
const PLACES: [(u8, bool); 15] = [
    (1, false),
    (2, false),
    (3, false),
    (4, false),
    (4, true),
    (5, false),
    (6, false),
    (6, true),
    (7, true),
    (8, false),
    (8, true),
    (9, false),
    (9, true),
    (10, false),
    (11, false),
];

// a formula whose operator breaks the rule exactly if the inner one isn't Boolean
fn over(alloc: Global, place: (u8, bool), inner: Formula) -> Result<Formula, AllocError> {
    let (rule, right) = place;
    let inner = Subformula::new(alloc, inner)?;
    let other = if rule == 4 { always(alloc, b())? } else { b() };
    let other = Subformula::new(alloc, other)?;
    let (one, two) = if right {
        (other, inner)
    } else {
        (inner, other)
    };
    Ok(match rule {
        1 => Formula::Not(one),
        2 => Formula::Never(one),
        3 => Formula::Eventually(one),
        4 => Formula::Or(one, two),
        5 => Formula::Implies(one, two),
        6 => Formula::Iff(one, two),
        7 => until(one, false, two),
        8 => until(one, true, two),
        9 => before(one, right, two),
        10 => next(Reach::Some, one),
        _ => event(Reach::Some, one),
    })
}

#[test]
fn each_rule_alone_is_named(rt: HostRuntime) -> Result<(), Fail> {
    let alloc = rt.alloc();
    for place in PLACES {
        let (number, _) = place;
        let broken = over(alloc, place, always(alloc, a())?)?;
        assert!(rt; check(&broken) == Err(Rule { number }), "rule {number}");
        let under = always(alloc, broken)?;
        assert!(rt; check(&under) == Err(Rule { number }), "rule {number}");
        let kept = over(alloc, place, a())?;
        assert!(rt; check(&kept) == Ok(()), "rule {number}");
        assert!(rt; !is_boolean(&kept));
    }
    assert!(rt; is_boolean(&a()));
    Ok(())
}

// one in the operand of the other, and one to the left of the other
#[test]
fn of_two_rules_the_first_in_reading_order_is_named(rt: HostRuntime) -> Result<(), Fail> {
    let alloc = rt.alloc();
    for first in PLACES {
        let (number, _) = first;
        for second in PLACES {
            let inner = over(alloc, second, always(alloc, a())?)?;
            let outer = over(alloc, first, inner)?;
            assert!(rt; check(&outer) == Err(Rule { number }), "rule {number}");
            let left = Subformula::new(alloc, over(alloc, first, always(alloc, a())?)?)?;
            let right = Subformula::new(alloc, over(alloc, second, always(alloc, a())?)?)?;
            let both = Formula::And(left, right);
            assert!(rt; check(&both) == Err(Rule { number }), "rule {number}");
        }
    }
    Ok(())
}

#[test]
fn operators_take_what_they_may(rt: HostRuntime) -> Result<(), Fail> {
    let alloc = rt.alloc();
    for reach in [Reach::One, Reach::All] {
        let body = Subformula::new(alloc, always(alloc, a())?)?;
        assert!(rt; check(&next(reach, body)) == Ok(()));
        let body = Subformula::new(alloc, always(alloc, a())?)?;
        assert!(rt; check(&event(reach, body)) == Ok(()));
    }
    for later in [false, true] {
        let sere = Sere::Bool(Expr::Whole(1));
        let body = Subformula::new(alloc, always(alloc, a())?)?;
        assert!(rt; check(&Formula::Suffix { sere, later, body }) == Ok(()));
    }
    let right = Subformula::new(alloc, b())?;
    let left = Subformula::new(alloc, always(alloc, a())?)?;
    assert!(rt; check(&until(left, false, right)) == Ok(()));
    let left = Subformula::new(alloc, b())?;
    let right = Subformula::new(alloc, always(alloc, a())?)?;
    assert!(rt; check(&Formula::Implies(left, right)) == Ok(()));
    let body = Subformula::new(alloc, always(alloc, a())?)?;
    assert!(rt; check(&Formula::Abort(body, Expr::Whole(1))) == Ok(()));
    Ok(())
}
