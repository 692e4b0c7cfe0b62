//! Laws of certificates, as functions that do nothing: each one's contract is the law.

ghost use Rattle.cert_text.specs.Laws.{WrittenIsAccepted};

/// A text that is written of parts that refute all queries of a circuit is a certificate with these
/// parts.
pub fn written_is_accepted()
    ensures { WrittenIsAccepted }
{}
