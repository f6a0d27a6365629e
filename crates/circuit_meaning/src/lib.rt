//! What it means that a netlist checks a formula.
#![tactic(auto)]
