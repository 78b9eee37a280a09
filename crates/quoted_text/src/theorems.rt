//! What is so of all quoted texts, as laws that need no code.
ghost use Rattle.quoted_text.specs.Laws.{HasTextBytes, IsAsWritten, IsReadBack};

/// Each text has one quoted text, from which it is read back, and nothing else is read.
pub fn reading_undoes_writing()
    ensures back { IsReadBack }
    ensures written { IsAsWritten }
    ensures bytes { HasTextBytes }
{}
