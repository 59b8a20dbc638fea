ghost use Rattle.std.specs.Prelude.{◌≡◌, List};
ghost use Rattle.swift_lex.specs.declared.token.Token as lex;
ghost use Rattle.swift_ast.specs.declared.piece.Source as ast;
ghost use Rattle.swift_parse.specs.File.{Spells};

/// No two sources are spelled by one list of tokens.
pub fn one_source()
    ensures { (tokens : List lex.Token) (one other : ast.Source) → Spells tokens one → Spells tokens other → one ≡ other }
{}
