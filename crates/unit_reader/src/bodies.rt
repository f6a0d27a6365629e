//! What stands inside one more open phrase.

/// A kind of phrase that a bracket, a word or a mark opens.
#[derive(Clone, Copy, Debug)]
pub enum Body {
    Operand,
    Occurrence,
    Suffixed,
    Implication,
    Property,
}
