//! What is so of all dumps, as laws that need no code.
ghost use Rattle.dump_text.specs.Laws.{NoneIsAFront};

/// No dump is a proper front of another.
pub fn no_dump_begins_another()
    ensures { NoneIsAFront }
{}
