//! The calls that compile a unit's text.

ghost use Rattle.std.specs.Prelude.{◌≡◌, ◌⊎◌, ◌≤◌, ◌<◌, ◌+◌, ◌^◌, length, map, flat_map};
ghost use Rattle.std.specs.Prelude.{IfOk, IfErr, IsErrAnd, IsOkUnless};
ghost use Rattle.psl_grammar.specs.UnitView.{unit_of as raw_unit_of};
ghost use Rattle.psl_grammar.specs.Units.{IsUnit};
ghost use Rattle.psl_lexer.specs.Splits.{Splits};
ghost use Rattle.psl_model.specs.Limits.{unit_text_limit};
ghost use Rattle.psl_model.specs.declared.refusals.Refusal.{Refusal};
ghost use Rattle.psl_model.specs.declared.refusals.Refusal.TheVariants.{OutOfMemory};
ghost use Rattle.verilog_text.specs.Text.{spelling};
ghost use Rattle.verilog_text.specs.View.{module_of};
ghost use Rattle.checker_meaning.specs.Headline.{IsCompiled};
ghost use Rattle.psl_units.specs.StandsForUnit.{StandsForUnit};
ghost use Rattle.unit_compile.specs.Made.{IsAccepted, AreModulesOf, IsTextOfModules};
ghost use Rattle.unit_compile.specs.Refused.{IsRefused, ComesFor};

use crate::laws::{
    a_text_has_one_answer, a_unit_meets_its_conditions, checkers_have_different_names,
    modules_of_a_text_check_its_unit,
};
use crate::making::modules_of;
use crate::refusals::{grammar_refusal, rule_refusal, token_refusal};
use psl_grammar::RawUnit;
use psl_grammar::laws::a_unit_names_its_tokens_in_order;
use psl_lexer::laws::tokens_stand_in_order;
use psl_lexer::{Token, tokens};
use psl_model::Refusal;
use psl_parser::parse_unit;
use psl_units::resolve;
use std::alloc::{AllocError, Global};
use verilog_text::{Module, print};

// The modules of a raw tree of the text's tokens.
fn tree_modules(
    alloc: Global,
    text: &[u8],
    tokens: &[Token],
    raw: &RawUnit,
) -> Result<Vec<Module>, Refusal>
    requires short { length text.now ≤ unit_text_limit }
    requires few { length raw.now.items.items + 1 < 2 ^ 32 }
    requires split { Splits 0 text.now tokens.now }
    requires written { IsUnit text.now tokens.now (raw_unit_of raw.now) }
    ensures made { IfOk result (λ modules. AreModulesOf text.now (map module_of modules.items)) }
    ensures refused { IfErr result (λ r. (r ≡ OutOfMemory) ⊎ IsRefused text.now r) }
{
    a_unit_meets_its_conditions();
    checkers_have_different_names();
    match resolve(alloc, text, tokens, raw) {
        Ok(unit) => modules_of(alloc, &unit),
        Err(error) => Err(rule_refusal(text, tokens, error)),
    }
}

// The modules of the text's tokens.
fn token_modules(alloc: Global, text: &[u8], tokens: &[Token]) -> Result<Vec<Module>, Refusal>
    requires short { length text.now ≤ unit_text_limit }
    requires split { Splits 0 text.now tokens.now }
    ensures made { IfOk result (λ modules. AreModulesOf text.now (map module_of modules.items)) }
    ensures refused { IfErr result (λ r. (r ≡ OutOfMemory) ⊎ IsRefused text.now r) }
{
    tokens_stand_in_order();
    a_unit_names_its_tokens_in_order();
    match parse_unit(alloc, text, tokens) {
        Ok(raw) => tree_modules(alloc, text, tokens, &raw),
        Err(error) => Err(grammar_refusal(text, tokens, error)),
    }
}

// The modules of the text.
fn text_modules(alloc: Global, text: &[u8]) -> Result<Vec<Module>, Refusal>
    requires short { length text.now ≤ unit_text_limit }
    ensures made { IfOk result (λ modules. AreModulesOf text.now (map module_of modules.items)) }
    ensures refused { IfErr result (λ r. (r ≡ OutOfMemory) ⊎ IsRefused text.now r) }
{
    match tokens(alloc, text) {
        Ok(tokens) => token_modules(alloc, text, &tokens),
        Err(error) => Err(token_refusal(error)),
    }
}

/// The checkers of the unit that a text of at most 1,048,576 bytes stands for, one for each directive, in their order;
/// exactly where it stands for a unit of which checkers are made. Else why there are none. `OutOfMemory` may come in
/// place of any answer: then nothing is said of the text.
pub fn modules(alloc: Global, text: &[u8]) -> Result<Vec<Module>, Refusal>
    requires short { length text.now ≤ unit_text_limit }
    ensures made { IfOk result (λ modules. AreModulesOf text.now (map module_of modules.items)) }
    ensures refused { IfErr result (λ r. (r ≡ OutOfMemory) ⊎ IsRefused text.now r) }
    ensures accepted { IsAccepted text.now → IsOkUnless result OutOfMemory }
    ensures due { (due : Refusal) → IsRefused text.now due → IsErrAnd result (ComesFor text.now due) }
{
    a_text_has_one_answer();
    text_modules(alloc, text)
}

// The texts of some modules, one behind the other.
fn print_all(alloc: Global, modules: &[Module]) -> Result<Vec<u8>, AllocError>
    ensures { IfOk result (λ text. text.items ≡ flat_map spelling (map module_of modules.now)) }
{
    let mut text = Vec::new(alloc);
    for checker in modules {
        print(checker, &mut text)?;
    }
    Ok(text)
}

// The text of the modules, or no memory for it.
fn print_modules(alloc: Global, modules: &[Module]) -> Result<Vec<u8>, Refusal>
    ensures text { IfOk result (λ text. text.items ≡ flat_map spelling (map module_of modules.now)) }
    ensures full { IfErr result (λ r. r ≡ OutOfMemory) }
{
    match print_all(alloc, modules) {
        Ok(text) => Ok(text),
        Err(_) => Err(Refusal::OutOfMemory),
    }
}

/// The text of the checkers that `modules` gives, one behind the other, or what `modules` refuses the text for.
pub fn compile(alloc: Global, text: &[u8]) -> Result<Vec<u8>, Refusal>
    requires short { length text.now ≤ unit_text_limit }
    ensures compiled { IfOk result (λ checkers. IsCompiled StandsForUnit text.now checkers.items) }
    ensures made { IfOk result (λ checkers. IsTextOfModules text.now checkers.items) }
    ensures refused { IfErr result (λ r. (r ≡ OutOfMemory) ⊎ IsRefused text.now r) }
    ensures accepted { IsAccepted text.now → IsOkUnless result OutOfMemory }
    ensures due { (due : Refusal) → IsRefused text.now due → IsErrAnd result (ComesFor text.now due) }
{
    modules_of_a_text_check_its_unit();
    match modules(alloc, text) {
        Ok(modules) => print_modules(alloc, &modules),
        Err(refusal) => Err(refusal),
    }
}
