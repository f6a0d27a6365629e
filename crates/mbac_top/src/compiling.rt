//! From the bytes of a unit to the text of its checkers.

ghost use Rattle.std.specs.Prelude.{◌≤◌, length, IfOk, IfErr};
ghost use Rattle.psl_model.specs.Limits.{unit_text_limit};
ghost use Rattle.mbac_top.specs.Compile.{IsCompiledTo};
ghost use Rattle.mbac_top.specs.inner.Ending.{IsWhyUncompiled};

use crate::outcome::Cause;
use crate::refusals::cause_of;
use std::alloc::Global;

/// The text of the checkers of the unit that the bytes stand for, or why there is none.
pub(crate) fn compile(alloc: Global, bytes: &[u8]) -> Result<Vec<u8>, Cause>
    requires { length bytes.now ≤ unit_text_limit }
    ensures text { IfOk result (λ text. IsCompiledTo bytes.now text.items) }
    ensures cause { IfErr result (IsWhyUncompiled bytes.now) }
{
    match unit_compile::compile(alloc, bytes) {
        Ok(text) => Ok(text),
        Err(refusal) => Err(cause_of(refusal)),
    }
}
