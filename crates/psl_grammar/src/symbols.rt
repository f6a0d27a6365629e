//! What the grammar sees of a token.

/// A token as the grammar sees it. Words and marks that stand in the same places of the grammar are one symbol, and a
/// name is what the items before it make of it.
#[derive(Clone, Copy, Debug, PartialEq, Eq)]
pub enum Symbol {
    /// Behind the last token.
    End,
    /// A name that is no sequence's and no property's where it stands.
    Name,
    SequenceName,
    PropertyName,
    Number,
    /// A sized literal, `true` or `false`.
    Literal,
    Text,
    Inf,
    Vunit,
    Default,
    Clock,
    Posedge,
    Wire,
    Sequence,
    Property,
    Assert,
    Report,
    /// `always` or `never`.
    Always,
    EventuallyStrong,
    /// `next` or `next!`.
    Next,
    /// `next_a` or `next_e`, with `!` or without.
    NextRange,
    /// `next_event`, with `!` or without.
    Event,
    /// `next_event_a` or `next_event_e`, with `!` or without.
    EventRange,
    /// One of the four forms of `until` and the four of `before`.
    Until,
    Abort,
    Within,
    OpenParenthesis,
    CloseParenthesis,
    OpenBracket,
    CloseBracket,
    OpenBrace,
    CloseBrace,
    /// `[*`
    RepeatOpen,
    /// `[+]`
    RepeatPlus,
    /// `[->`
    GotoOpen,
    /// `[=`
    EqualRepeatOpen,
    Colon,
    Semicolon,
    Comma,
    /// `=`
    Equal,
    Question,
    /// `!`
    Exclamation,
    Tilde,
    /// `+` or `-`
    Sum,
    /// `<<` or `>>`
    Shift,
    /// `<`, `<=`, `>` or `>=`
    Order,
    /// `==` or `!=`
    Equality,
    And,
    Caret,
    Or,
    AndAnd,
    OrOr,
    /// `->`
    Arrow,
    /// `<->`
    DoubleArrow,
    /// `|->` or `|=>`
    Suffix,
}
