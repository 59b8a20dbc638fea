ghost use Rattle.source_sizes.specs.Sizes.{DeclarationsAreFew, TokensAreFew};

/// A file spells at least four tokens for each declaration and one for each member, case and environment key.
pub fn declarations_are_few()
    ensures law { DeclarationsAreFew }
{}

/// A text has at most one token more than bytes.
pub fn tokens_are_few()
    ensures law { TokensAreFew }
{}
