//! How much a text of a given length can declare.
#![tactic(auto)]

ghost use Rattle.text_sizes.specs.FewDeclared.{FewDeclared};

/// Law: a text has five bytes or more for each of its declarations. So one of at most 262,144 bytes has at most 52,428
/// channels, variables and procedures together.
pub fn few_declared()
    ensures { FewDeclared }
{}
