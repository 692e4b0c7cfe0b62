//! What a text is made of.

/// A blank, a comment or an attribute, a continued line, a directive, or a token.
#[derive(Clone, Copy, Debug, PartialEq, Eq, Drop)]
pub enum Lexeme {
    /// A space, tab, carriage return or line feed.
    Blank,
    /// A comment or an attribute.
    Passed,
    /// A `\` directly before a line feed.
    Continued,
    /// A directive or the use of a macro: a grave accent and an identifier.
    Tick,
    /// A name or a word.
    Identifier,
    /// A number.
    Numeral,
    /// `$` and an identifier.
    SystemName,
    /// A mark.
    Symbol,
}
