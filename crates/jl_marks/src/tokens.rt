//! The tokens with their marks, one after another.

ghost use Rattle.std.specs.Prelude.{◌≡◌, ◌∷◌, [], MatchOption};
ghost use Rattle.jl_marks.specs.Pairs.{pair_marks};

use jl_grammar::mark::{Marked, Marks};
use jl_model::rows::Stack;
use jl_typeread::terminal::Lexeme;
use std::marker::Model;
use std::vec::IntoIter;

/// Tokens with their marks, which contracts see as the list of both. The tokens stay where they were read, and each is
/// put together with its marks as it is taken.
#[derive(Drop)]
pub struct MarkedTokens {
    lexemes: IntoIter<Lexeme>,
    marks: Stack<Marks>,
}

impl Model for MarkedTokens {
    ghost use Rattle.std.specs.Prelude.{List};
    ghost use Rattle.std.specs.Coded.{coded_list};
    ghost use Rattle.std.specs.Vec.Iter.{into_iter_items};
    ghost use Rattle.jl_grammar.specs.declared.mark.Marked.{Marked};
    ghost use Rattle.jl_grammar.specs.contracts.mark.Marked as e;
    ghost use Rattle.jl_marks.specs.Pairs.{pair_marks};

    ghost Value = { List Marked };

    ghost coded = { coded_list e.the_row.coded };

    ghost view = { λ it. pair_marks it.marks (into_iter_items it.lexemes) };
}

impl MarkedTokens {
    /// Each of the tokens with the marks that have its place.
    pub(crate) fn new(lexemes: Vec<Lexeme>, marks: Stack<Marks>) -> MarkedTokens
        ensures { result ≡ pair_marks marks lexemes.items }
    {
        MarkedTokens {
            lexemes: lexemes.into_iter(),
            marks,
        }
    }

    /// The next token.
    pub fn pop(&mut self) -> Option<Marked>
        ensures { MatchOption result ((self.old ≡ []) × (self.new ≡ []))
            (λ token. self.old ≡ token ∷ self.new) }
    {
        let marks = self.marks.pop()?;
        let lexeme = self.lexemes.next()?;
        Some(Marked { lexeme, marks })
    }
}
