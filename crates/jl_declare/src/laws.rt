//! Laws of declarations. They are about definitions alone: each function does nothing, and its contract is the law.

ghost use Rattle.std.specs.Prelude.{◌≡◌, List, true, length, None};
ghost use Rattle.jl_model.specs.declared.ty.Decl.{Decl};
ghost use Rattle.jl_model.specs.declared.ty.DeclKind.{DeclKind};
ghost use Rattle.jl_model.specs.Refusals.{Declared, HasOwnVariables};
ghost use Rattle.jl_grammar.specs.declared.tree.Field.{Field};
ghost use Rattle.jl_grammar.specs.declared.tree.Header.{Header};
ghost use Rattle.jl_grammar.specs.declared.tree.Item.{Item};
ghost use Rattle.jl_declare.specs.Declaration.{declaration};
ghost use Rattle.jl_declare.specs.Declarations.{Declaring, no_declaration, Declares};

/// A declaration behind valid ones, of which all arguments are written, has only its own variables.
pub fn law_own_variables()
    ensures { (ds : List Decl) (k : DeclKind) (h : Header) (fields : List Field)
        → Declared ds → (declaration ds k h fields).whole ≡ true
        → HasOwnVariables (declaration ds k h fields).decl }
{}

/// Where no fault is found, all declarations of a script are allowed.
pub fn law_all_allowed()
    ensures { (items : List Item) (d : Declaring)
        → Declares items no_declaration d → d.fault ≡ None → d.allowed ≡ length d.decls }
{}

/// The items of a script have one result: the list of declarations, how many of them are allowed, and the first fault.
pub fn law_one_result()
    ensures { (items : List Item) (d e : Declaring)
        → Declares items no_declaration d → Declares items no_declaration e → d ≡ e }
{}
