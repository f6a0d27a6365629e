//! Netlists, and the calls that make them.

ghost use Rattle.std.specs.Prelude.{◌≡◌, ◌≢◌, ◌↔◌, ◌⊎◌, ◌<◌, ◌≤◌, ◌++◌, ◌^◌, ℕ, suc, List, [], ◌∷◌, Some, None, All};
ghost use Rattle.std.specs.Prelude.{IfOk, OnErr, OnOk, length, map, slice_get, sum};
ghost use Rattle.psl_model.specs.View.{expr_of};
ghost use Rattle.psl_model.specs.Value.{own_value};
ghost use Rattle.circuit_core.specs.Netlist as plain;
ghost use Rattle.circuit_core.specs.Netlist.{IsNet, IsNetOf, one_bit};
ghost use Rattle.circuit_core.specs.View.{op_of, node_of, net_of, register_of};
ghost use Rattle.circuit_core.specs.WellMade.{IsGuard, IsWidth, IsOpAt, IsWellMade};
ghost use Rattle.circuit_core.specs.Growth.{Extends, IsSet, HasNoNext, opened};
ghost use Rattle.circuit_core.specs.Run.{On, number, truth, Throughout, InEachRun, InEachCycle, IsRunOf};

use crate::nodes::{Net, NetReg, Node, Op, Reg};
use psl_model::Expr;
use std::alloc::{AllocError, Global};
use std::marker::Model;

/// Each netlist is well made. The function does nothing.
pub fn a_netlist_is_well_made(netlist: &Netlist)
    ensures { IsWellMade netlist.now }
{
    let _output = netlist.output;
}

/// A netlist over the signals of a trace. It only grows: a net keeps its value whatever is added. After want of memory
/// what stood before stands.
#[derive(Debug, Drop)]
pub struct Netlist {
    alloc: Global,
    widths: Vec<u32>,
    nodes: Vec<Node>,
    regs: Vec<NetReg>,
    output: Option<Net>,
}

impl Model for Netlist {
    ghost use Rattle.std.specs.Prelude.{map};
    ghost use Rattle.circuit_core.specs.Netlist as plain;
    ghost use Rattle.circuit_core.specs.View.{node_of, net_of, register_of};
    ghost use Rattle.circuit_core.specs.WellMade.{IsWellMade};
    ghost use Rattle.circuit_core.specs.Codes.{coded_netlist};

    ghost Value = { plain.Netlist };

    ghost coded = { coded_netlist };

    ghost view = { λ m. record {
      widths = m.widths.items;
      nodes = map node_of m.nodes.items;
      registers = map register_of m.regs.items;
      output = net_of m.output;
    } };

    ghost invariant = { λ m. IsWellMade (record {
      widths = m.widths.items;
      nodes = map node_of m.nodes.items;
      registers = map register_of m.regs.items;
      output = net_of m.output;
    }) };
}

impl Netlist {
    /// A netlist without nodes, over signals of these widths in bits.
    pub fn new(alloc: Global, widths: Vec<u32>) -> Result<Netlist, AllocError>
        requires widths { All IsWidth widths.items }
        ensures { IfOk result (λ m. m ≡ record { widths = widths.items; nodes = []; registers = []; output = None }) }
    {
        Ok(Netlist {
            alloc,
            widths,
            nodes: Vec::new(alloc),
            regs: Vec::new(alloc),
            output: None,
        })
    }

    // Puts a node of one bit at the end.
    fn push(&mut self, op: Op) -> Result<Net, AllocError>
        requires { IsOpAt self.old (length self.old.nodes) (op_of op) }
        ensures node { IfOk result (λ k. (k.0 ≡ length self.old.nodes)
            × (self.new ≡ record self.old { nodes = self.old.nodes ++ one_bit (op_of op) ∷ [] })) }
        ensures err { OnErr result (self.new ≡ self.old) }
    {
        let net = Net(self.nodes.len());
        self.nodes.push(Node { width: 1, op })?;
        Ok(net)
    }

    // The same, and what is kept.
    fn put(&mut self, op: Op) -> Result<Net, AllocError>
        requires { IsOpAt self.old (length self.old.nodes) (op_of op) }
        ensures kept { Extends self.old self.new }
        ensures net { IfOk result (λ k. IsNet self.new k.0) }
        ensures registers { self.new.registers ≡ self.old.registers }
        ensures one_more { length self.new.nodes ≤ suc (length self.old.nodes) }
        ensures node { IfOk result (λ k. slice_get self.new.nodes k.0 ≡ Some (one_bit (op_of op))) }
    {
        self.push(op)
    }

    // Puts a register at the end.
    fn push_register(&mut self, width: u32, init: u128) -> Result<Reg, AllocError>
        requires width { width ≡ 1 }
        requires fits { init < 2 ^ width }
        ensures register { IfOk result (λ r. (r.0 ≡ length self.old.registers)
            × (self.new ≡ record self.old { registers = self.old.registers ++ opened width init ∷ [] })) }
        ensures err { OnErr result (self.new ≡ self.old) }
    {
        let reg = Reg(self.regs.len());
        self.regs.push(NetReg {
            width,
            init,
            next: None,
        })?;
        Ok(reg)
    }

    // The same, and what is kept.
    fn put_register(&mut self, width: u32, init: u128) -> Result<Reg, AllocError>
        requires width { width ≡ 1 }
        requires fits { init < 2 ^ width }
        ensures kept { Extends self.old self.new }
        ensures number { IfOk result (λ r. r.0 ≡ length self.old.registers) }
        ensures registers { OnOk result (self.new.registers ≡ self.old.registers ++ opened width init ∷ []) }
        ensures nodes { self.new.nodes ≡ self.old.nodes }
        ensures register { IfOk result (λ r. slice_get self.new.registers r.0 ≡ Some (opened width init)) }
    {
        self.push_register(width, init)
    }

    /// A constant.
    pub fn bit(&mut self, value: bool) -> Result<Net, AllocError>
        ensures kept { Extends self.old self.new }
        ensures net { IfOk result (λ k. IsNet self.new k.0) }
        ensures registers { self.new.registers ≡ self.old.registers }
        ensures one_more { length self.new.nodes ≤ suc (length self.old.nodes) }
        ensures node { IfOk result (λ k. slice_get self.new.nodes k.0 ≡ Some (one_bit (plain.bit value))) }
        ensures stream { IfOk result (λ k. InEachCycle self.new (λ run n. run k.0 n ≡ number value)) }
    {
        self.put(Op::Bit(value))
    }

    /// Whether this is the last cycle: the input `mbac_eot`.
    pub fn eot(&mut self) -> Result<Net, AllocError>
        ensures kept { Extends self.old self.new }
        ensures net { IfOk result (λ k. IsNet self.new k.0) }
        ensures registers { self.new.registers ≡ self.old.registers }
        ensures one_more { length self.new.nodes ≤ suc (length self.old.nodes) }
        ensures node { IfOk result (λ k. slice_get self.new.nodes k.0 ≡ Some (one_bit plain.eot)) }
        ensures stream { IfOk result (λ k.
            InEachRun self.new (λ inputs run. Throughout inputs (λ n. run k.0 n ≡ truth (inputs.eot n)))) }
    {
        self.put(Op::Eot)
    }

    /// On in each cycle in which the expression's value, at its own width, isn't 0. The netlist keeps a copy of it.
    pub fn guard(&mut self, expr: &Expr) -> Result<Net, AllocError>
        requires { IsGuard self.old.widths (expr_of expr.now) }
        ensures kept { Extends self.old self.new }
        ensures net { IfOk result (λ k. IsNet self.new k.0) }
        ensures registers { self.new.registers ≡ self.old.registers }
        ensures one_more { length self.new.nodes ≤ suc (length self.old.nodes) }
        ensures node { IfOk result (λ k.
            slice_get self.new.nodes k.0 ≡ Some (one_bit (plain.guard (expr_of expr.now)))) }
        ensures stream { IfOk result (λ k. InEachRun self.new (λ inputs run. (n : ℕ) (values : List ℕ) →
            slice_get inputs.trace n ≡ Some values → On (run k.0) n ↔
            (own_value self.old.widths values (expr_of expr.now) ≢ 0))) }
    {
        let expr = expr.copy(self.alloc)?;
        self.put(Op::Guard(expr))
    }

    pub fn not(&mut self, a: Net) -> Result<Net, AllocError>
        requires { IsNet self.old a.0 }
        ensures kept { Extends self.old self.new }
        ensures net { IfOk result (λ k. IsNet self.new k.0) }
        ensures registers { self.new.registers ≡ self.old.registers }
        ensures one_more { length self.new.nodes ≤ suc (length self.old.nodes) }
        ensures node { IfOk result (λ k. slice_get self.new.nodes k.0 ≡ Some (one_bit (plain.not a.0))) }
        ensures stream { IfOk result (λ k. InEachCycle self.new (λ run n. On (run k.0) n ↔ ¬ On (run a.0) n)) }
    {
        self.put(Op::Not(a))
    }

    pub fn and(&mut self, a: Net, b: Net) -> Result<Net, AllocError>
        requires left { IsNet self.old a.0 }
        requires right { IsNet self.old b.0 }
        ensures kept { Extends self.old self.new }
        ensures net { IfOk result (λ k. IsNet self.new k.0) }
        ensures registers { self.new.registers ≡ self.old.registers }
        ensures one_more { length self.new.nodes ≤ suc (length self.old.nodes) }
        ensures node { IfOk result (λ k. slice_get self.new.nodes k.0 ≡ Some (one_bit (plain.and a.0 b.0))) }
        ensures stream { IfOk result (λ k.
            InEachCycle self.new (λ run n. On (run k.0) n ↔ (On (run a.0) n × On (run b.0) n))) }
    {
        self.put(Op::And(a, b))
    }

    pub fn or(&mut self, a: Net, b: Net) -> Result<Net, AllocError>
        requires left { IsNet self.old a.0 }
        requires right { IsNet self.old b.0 }
        ensures kept { Extends self.old self.new }
        ensures net { IfOk result (λ k. IsNet self.new k.0) }
        ensures registers { self.new.registers ≡ self.old.registers }
        ensures one_more { length self.new.nodes ≤ suc (length self.old.nodes) }
        ensures node { IfOk result (λ k. slice_get self.new.nodes k.0 ≡ Some (one_bit (plain.or a.0 b.0))) }
        ensures stream { IfOk result (λ k.
            InEachCycle self.new (λ run n. On (run k.0) n ↔ (On (run a.0) n ⊎ On (run b.0) n))) }
    {
        self.put(Op::Or(a, b))
    }

    /// A new register and its net. It begins with `init`; its next is set once, by `set_next`. Registers have one bit.
    pub fn reg(&mut self, width: u32, init: u128) -> Result<(Reg, Net), AllocError>
        requires width { width ≡ 1 }
        requires fits { init < 2 ^ width }
        ensures kept { Extends self.old self.new }
        ensures number { IfOk result (λ x. x.0.0 ≡ length self.old.registers) }
        ensures registers { OnOk result (self.new.registers ≡ self.old.registers ++ opened width init ∷ []) }
        ensures register { IfOk result (λ x. slice_get self.new.registers x.0.0 ≡ Some (opened width init)) }
        ensures net { IfOk result (λ x. IsNet self.new x.1.0) }
        ensures one_more { length self.new.nodes ≤ suc (length self.old.nodes) }
        ensures net_of { IfOk result (λ x. IsNetOf self.new x.0.0 x.1.0) }
        ensures begins { IfOk result (λ x.
            InEachRun self.new (λ inputs run. 0 < length inputs.trace → run x.1.0 0 ≡ init)) }
    {
        let reg = self.put_register(width, init)?;
        let net = self.put(Op::Register(reg))?;
        Ok((reg, net))
    }

    /// Sets the next of a register that has none: in each later cycle it has the value that `next` had before.
    pub fn set_next(&mut self, reg: Reg, next: Net)
        requires next { IsNet self.old next.0 }
        requires unset { HasNoNext self.old reg.0 }
        ensures { IsSet self.old reg.0 next.0 self.new }
    {
        self.regs[reg.0].next = Some(next);
    }

    /// Makes this net the output.
    pub fn finish(&mut self, fail: Net)
        requires { IsNet self.old fail.0 }
        ensures output { self.new ≡ record self.old { output = Some fail.0 } }
        ensures runs { InEachRun self.new (λ inputs run. IsRunOf self.old inputs run) }
    {
        self.output = Some(fail);
    }

    /// The widths of the signals, in bits.
    pub fn widths(&self) -> &[u32]
        ensures { result.now ≡ self.now.widths }
    {
        &self.widths
    }

    /// The nodes, in the order of the nets.
    pub fn nodes(&self) -> &[Node]
        ensures { map node_of result.now ≡ self.now.nodes }
    {
        &self.nodes
    }

    /// The registers, in the order of their making.
    pub fn regs(&self) -> &[NetReg]
        ensures { map register_of result.now ≡ self.now.registers }
    {
        &self.regs
    }

    /// The net that `finish` was given: none until it was called.
    pub fn output(&self) -> Option<Net>
        ensures { net_of result ≡ self.now.output }
    {
        self.output
    }

    /// How many bits all registers have.
    pub fn register_bits(&self) -> u128
        ensures { result ≡ sum (map (λ (x : plain.Register). x.width) self.now.registers) }
    {
        self.regs.iter().map(|reg| u128::from(reg.width)).sum()
    }
}
