ghost use Rattle.std.specs.Prelude.{◌≡◌, [], ◌∷◌, IfOk};
ghost use Rattle.psl_model.specs.View.{expr_of};
ghost use Rattle.circuit_core.specs.WellMade.{IsGuard};

use circuit_core::{Net, NetReg, Netlist, Node, Op, Reg};
use psl_model::{BinOp, Expr, Subexpr};
use std::alloc::{AllocError, Global};
use std::test::Fail;

// a == 4'd9, over one signal of 4 bits
fn is_nine(alloc: Global) -> Result<Expr, AllocError>
    ensures { IfOk result (λ e. IsGuard (4 ∷ []) (expr_of e)) }
{
    let a = Subexpr::new(alloc, Expr::Whole(0))?;
    let nine = Subexpr::new(alloc, Expr::Sized(4, 9))?;
    Ok(Expr::Binary(BinOp::Eq, a, nine))
}

fn over_four_bits(alloc: Global) -> Result<Netlist, AllocError>
    ensures { IfOk result (λ m. m.widths ≡ 4 ∷ []) }
{
    let mut widths = Vec::new(alloc);
    widths.push(4)?;
    Netlist::new(alloc, widths)
}

fn is_node(node: &Node, op: &Op) -> bool {
    let same = match (&node.op, op) {
        (Op::Bit(a), Op::Bit(b)) => a == b,
        (Op::Eot, Op::Eot) => true,
        (Op::Guard(a), Op::Guard(b)) => a == b,
        (Op::Not(a), Op::Not(b)) => a == b,
        (Op::And(a, c), Op::And(b, d)) | (Op::Or(a, c), Op::Or(b, d)) => a == b && c == d,
        (Op::Register(a), Op::Register(b)) => a == b,
        _ => false,
    };
    same && node.width == 1
}

#[test]
fn a_netlist_lends_what_each_call_made(rt: HostRuntime) -> Result<(), Fail> {
    let alloc = rt.alloc();
    let nine = is_nine(alloc)?;
    let mut net = over_four_bits(alloc)?;
    let nine = net.guard(&nine)?;
    let one = net.bit(true)?;
    let end = net.eot()?;
    let (held, held_net) = net.reg(1, 1)?;
    assert!(rt; net.regs()[0].next.is_none());
    let other = net.not(nine)?;
    let both = net.and(one, other)?;
    let any = net.or(both, held_net)?;
    net.set_next(held, any);
    let (last, last_net) = net.reg(1, 0)?;
    net.set_next(last, end);
    assert!(rt; net.output().is_none());
    net.finish(last_net);
    let wanted = [
        Op::Guard(is_nine(alloc)?),
        Op::Bit(true),
        Op::Eot,
        Op::Register(Reg(0)),
        Op::Not(Net(0)),
        Op::And(Net(1), Net(4)),
        Op::Or(Net(5), Net(3)),
        Op::Register(Reg(1)),
    ];
    assert_eq!(rt; net.nodes().len(), wanted.len());
    for (node, op) in net.nodes().iter().zip(wanted.iter()) {
        assert!(rt; is_node(node, op));
    }
    let regs = [
        NetReg {
            width: 1,
            init: 1,
            next: Some(Net(6)),
        },
        NetReg {
            width: 1,
            init: 0,
            next: Some(Net(2)),
        },
    ];
    assert_eq!(rt; net.regs(), regs.as_slice());
    assert_eq!(rt; net.output(), Some(Net(7)));
    assert_eq!(rt; net.register_bits(), 2);
    assert_eq!(rt; net.widths(), [4].as_slice());
    Ok(())
}
