//! Laws that each question of the rules has one answer. They are about definitions alone: each function does nothing, and its
//! contract is the law.

ghost use Rattle.jl_calculus.specs.AnswerLaws.{ChoiceIsOne, ChoiceIsThere, BindingsAreThere, TupleIsOne, StructIsOne, WrittenIsOne, InferredIsOne, BelowIsDecided, TupleIsThere, StructIsThere, BrokenIsTold, BodyIsTold, OtherIsTold, TestIsOne, OrderIsOne, IdentityIsOne, CoverIsOne, SiteIsThere};

/// A call has one choice in a world, which is there wherever it is decided which methods apply and which signature is below
/// which. A body gets one type for each variable of its signature.
pub fn law_choice_is_one()
    ensures one { ChoiceIsOne }
    ensures there { ChoiceIsThere }
    ensures bindings { BindingsAreThere }
{}

/// Making a tuple or a struct of given values gives one answer: the value, or one fault.
pub fn law_made_is_one()
    ensures tuple { TupleIsOne }
    ensures exact { StructIsOne }
    ensures written { WrittenIsOne }
    ensures inferred { InferredIsOne }
{}

/// Of two types it is decided whether one is below the other, and so what a tuple and a struct of a type are made of given values is
/// there.
pub fn law_made_is_there()
    ensures below { BelowIsDecided }
    ensures tuple { TupleIsThere }
    ensures exact { StructIsThere }
{}

/// Where a fault is due there is one to tell: a declared bound that is broken has a nominal type to name, and a part that is not of
/// its field's type has a first one.
pub fn law_fault_is_told()
    ensures broken { BrokenIsTold }
    ensures body { BodyIsTold }
    ensures other { OtherIsTold }
{}

/// `isa`, `<:` and `===` have one answer: a truth value, or one fault of a written type.
pub fn law_test_is_one()
    ensures test { TestIsOne }
    ensures order { OrderIsOne }
    ensures identity { IdentityIsOne }
{}

/// For each key, and each world from the prelude's last on, there is one first world of the row that covers it, and the
/// row's site is the chosen method's; there is no right row exactly where no method is chosen.
pub fn law_row_is_one()
    ensures cover { CoverIsOne }
    ensures site { SiteIsThere }
{}
