//! One cycle over a table of values.

ghost use Rattle.std.specs.Prelude.{◌≡◌, ℕ, ◌+◌, ◌∷◌, ◌++◌, ◌<◌, ◌≤◌, ◌^◌, ◌==◌, All, length, map, slice_index};
ghost use Rattle.psl_model.specs.Value.{bit_of};
ghost use Rattle.verilog_text.specs.declared.module.RegDecl.{RegDecl};
ghost use Rattle.verilog_cycles.specs.inner.Nodes.{IsTape, Meets};
ghost use Rattle.verilog_cycles.specs.inner.Ready.{Begins};

use crate::nodes::evaluate;
use crate::program::Program;
use verilog_text::RegDecl;

/// Puts the values of the ports behind those of `mbac_rst` and `mbac_eot`.
fn put_ports(table: &mut [u64], ports: &[u128])
    requires room { 2 + length ports.now ≤ length table.old }
    requires small { All (λ v. v < 2 ^ 64) ports.now }
    ensures filled { (k : ℕ) → k < length ports.now → slice_index table.new (2 + k) ≡ slice_index ports.now k }
    ensures kept { (s : ℕ) → s < 2 → slice_index table.new s ≡ slice_index table.old s }
{
    for place in 0..ports.len() {
        table[2 + place] = ports[place] as u64;
    }
}

/// Puts the values of the registers from a place on.
fn put_state(table: &mut [u64], from: usize, state: &[u64])
    requires { from + length state.now ≤ length table.old }
    ensures filled { (k : ℕ) → k < length state.now → slice_index table.new (from + k) ≡ slice_index state.now k }
    ensures kept { (s : ℕ) → s < from → slice_index table.new s ≡ slice_index table.old s }
{
    for place in 0..state.len() {
        table[from + place] = state[place];
    }
}

/// Puts the values of a cycle without reset: its inputs and its registers.
fn fill(table: &mut [u64], eot: bool, ports: &[u128], state: &[u64])
    requires room { 2 + length ports.now + length state.now ≤ length table.old }
    requires small { All (λ v. v < 2 ^ 64) ports.now }
    ensures { Begins (0 ∷ bit_of eot ∷ ports.now ++ state.now) table.new }
{
    table[0] = 0;
    table[1] = u64::from(eot);
    put_ports(table, ports);
    put_state(table, 2 + ports.len(), state);
}

/// Reads what the registers take, all of it from the table.
fn take(nexts: &[usize], table: &[u64], state: &mut [u64])
    requires count { length nexts.now ≡ length state.old }
    requires within { All (λ p. p < length table.now) nexts.now }
    ensures { state.new ≡ map (λ p. slice_index table.now p) nexts.now }
{
    for at in 0..nexts.len() {
        state[at] = table[nexts[at]];
    }
}

/// Runs a cycle without reset, and gives the output.
pub(crate) fn run(
    program: &Program,
    table: &mut [u64],
    state: &mut [u64],
    ports: &[u128],
    eot: bool,
) -> bool
    requires size { length table.old ≡ length program.now.nodes.items }
    requires front { program.now.first ≡ 2 + length ports.now + length state.old }
    requires room { program.now.first ≤ length program.now.nodes.items }
    requires tape { IsTape program.now.nodes.items }
    requires count { length program.now.nexts.items ≡ length state.old }
    requires within { All (λ p. p < length table.old) program.now.nexts.items }
    requires fail { program.now.fail < length table.old }
    requires small { All (λ v. v < 2 ^ 64) ports.now }
    ensures begins { Begins (0 ∷ bit_of eot ∷ ports.now ++ state.old) table.new }
    ensures met { Meets program.now.first program.now.nodes.items table.new }
    ensures taken { state.new ≡ map (λ p. slice_index table.new p) program.now.nexts.items }
    ensures output { result ≡ (slice_index table.new program.now.fail == 1) }
{
    fill(table, eot, ports, state);
    evaluate(&program.nodes, program.first, table);
    take(&program.nexts, table, state);
    table[program.fail] == 1
}

/// Gives each register its reset value.
pub(crate) fn put_initial(regs: &[RegDecl], state: &mut [u64])
    requires count { length regs.now ≡ length state.old }
    requires small { All (λ (r : RegDecl). r.init < 2 ^ 64) regs.now }
    ensures { state.new ≡ map (λ (r : RegDecl). r.init) regs.now }
{
    for at in 0..regs.len() {
        state[at] = regs[at].init as u64;
    }
}
