//! What holds of the trees of scripts.

ghost use Rattle.std.specs.Prelude.{Bool, false, ℕ, List, [], ◌∷◌, ◌++◌, ◌≡◌, None, Ok};
ghost use Rattle.jl_token.specs.declared.token.Token.{Token};
ghost use Rattle.jl_token.specs.Grammar.{ReadsSource};
ghost use Rattle.jl_typeread.specs.declared.terminal.Terminal.TheVariants.{End};
ghost use Rattle.jl_typeread.specs.Lexemes.{lexemes};
ghost use Rattle.jl_grammar.specs.declared.tree.Expr.{Expr};
ghost use Rattle.jl_grammar.specs.declared.tree.Script.{Script};
ghost use Rattle.jl_grammar.specs.Grammar.{ScriptText};
ghost use Rattle.jl_grammar.specs.Reads.{text};
ghost use Rattle.jl_grammar.specs.Texts.{Text, Spot, tok};
ghost use Rattle.jl_formed.specs.Formed.{FormedExpr, FormedScript};

/// The script of a source is well formed: where the tokens of these bytes, as the grammar sees them, spell a script of which
/// no item is too deep.
#[tactic(none)]
pub fn law_formed()
    ensures { (bytes : List ℕ) (tokens : List Token) (ts : Text) (end : Spot) (s : Script)
        → ReadsSource bytes (Ok tokens) → text (lexemes tokens) ≡ ts ++ tok End end ∷ []
        → ScriptText (record { items = s.items; too_deep = None }) ts → FormedScript s }
{}

/// An expression that is well formed where no `return` may stand is so anywhere.
#[tactic(none)]
pub fn law_without_return()
    ensures { (r : Bool) (x : Expr) → FormedExpr false x → FormedExpr r x }
{}
