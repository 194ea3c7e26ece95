//! Methods and items with their depth, as they are made; and the items of a script.

ghost use Rattle.std.specs.Prelude.{◌≡◌, IfOk, OnOk, None, Some, if◌then◌else◌, nat_lt};
ghost use Rattle.jl_grammar.specs.Forms.{head, long_method, short_method, typed_param, header, abstract_item, struct_item, method_item, binding_item, expr_item, first_place, with_item};

use crate::forms::depth_around;
use jl_grammar::owned::Owned;
use jl_grammar::state::{Form, Forms, ItemsRead, TypeForm, VarsForm};
use jl_grammar::tree::{
    Abstract, Callee, Expr, Field, Head, Header, Item, Method, Name, Param, Stmt, Struct,
};
use jl_model::limits::MOST_ITEM_DEPTH;
use jl_model::rows::Row;
use jl_model::shared::SharedNode;
use std::alloc::{AllocError, Global};

/// The head of a method.
pub(crate) fn head(
    alloc: Global,
    at: u32,
    callee: Callee,
    params: Forms<Param>,
    vars: VarsForm,
) -> Result<Form<Head>, AllocError>
    ensures { IfOk result (λ r. r ≡ head at callee params vars) }
{
    let depth = params.depth.max(vars.depth);
    let params = params.trees.into_shared(alloc)?;
    let vars = vars.vars;
    let tree = Head {
        callee,
        params,
        vars,
    };
    let tree = Owned::new(alloc, tree)?;
    Ok(Form { tree, at, depth })
}

/// `function` with a head and a block.
pub(crate) fn long_method(
    alloc: Global,
    head: Form<Head>,
    ss: Forms<Stmt>,
) -> Result<Form<Method>, AllocError>
    ensures { IfOk result (λ r. r ≡ long_method head ss) }
{
    let depth = depth_around(head.depth.max(depth_around(ss.depth)));
    let at = head.at;
    let block = ss.trees.into_shared(alloc)?;
    let tree = Method::Long(at, head.tree.take(), block);
    let tree = Owned::new(alloc, tree)?;
    Ok(Form { tree, at, depth })
}

/// A head, `=` and an expression.
pub(crate) fn short_method(
    alloc: Global,
    head: Form<Head>,
    e: Form<Expr>,
) -> Result<Form<Method>, AllocError>
    ensures { IfOk result (λ r. r ≡ short_method head e) }
{
    let depth = depth_around(head.depth.max(e.depth));
    let at = head.at;
    let body = SharedNode::new(alloc, e.tree.take())?;
    let tree = Method::Short(at, head.tree.take(), body);
    let tree = Owned::new(alloc, tree)?;
    Ok(Form { tree, at, depth })
}

/// A parameter with its type.
pub(crate) fn typed_param(name: Option<Name>, at: u32, ty: TypeForm) -> Param
    ensures { result ≡ typed_param name at ty }
{
    match name {
        Some(name) => Param::Typed(name, ty.tree.take()),
        None => Param::Unnamed(at, ty.tree.take()),
    }
}

/// The head of a declaration.
pub(crate) fn header(
    alloc: Global,
    at: u32,
    name: Name,
    vars: VarsForm,
    parent: Option<TypeForm>,
) -> Result<Form<Header>, AllocError>
    ensures { IfOk result (λ r. r ≡ header at name vars parent) }
{
    let VarsForm {
        vars: params,
        depth,
    } = vars;
    let (parent, depth) = match parent {
        Some(ty) => (Some(ty.tree.take()), depth.max(ty.depth)),
        None => (None, depth),
    };
    let tree = Header {
        at,
        name,
        params,
        parent,
    };
    let tree = Owned::new(alloc, tree)?;
    Ok(Form { tree, at, depth })
}

/// The declaration of an abstract type.
pub(crate) fn abstract_item(alloc: Global, header: Form<Header>) -> Result<Form<Item>, AllocError>
    ensures { IfOk result (λ r. r ≡ abstract_item header) }
{
    let Form {
        tree: header,
        at,
        depth,
    } = header;
    let header = header.take();
    let tree = Item::Abstract(Abstract { header });
    let depth = depth_around(depth);
    let tree = Owned::new(alloc, tree)?;
    Ok(Form { tree, at, depth })
}

/// The declaration of a struct.
pub(crate) fn struct_item(
    alloc: Global,
    header: Form<Header>,
    fields: Forms<Field>,
) -> Result<Form<Item>, AllocError>
    ensures { IfOk result (λ r. r ≡ struct_item header fields) }
{
    let depth = depth_around(header.depth.max(fields.depth));
    let at = header.at;
    let fields = fields.trees.into_shared(alloc)?;
    let header = header.tree.take();
    let tree = Item::Struct(Struct { header, fields });
    let tree = Owned::new(alloc, tree)?;
    Ok(Form { tree, at, depth })
}

/// A method as an item.
pub(crate) fn method_item(alloc: Global, method: Form<Method>) -> Result<Form<Item>, AllocError>
    ensures { IfOk result (λ r. r ≡ method_item method) }
{
    let Form { tree, at, depth } = method;
    let tree = Item::Method(tree.take());
    let tree = Owned::new(alloc, tree)?;
    Ok(Form { tree, at, depth })
}

/// A binding as an item.
pub(crate) fn binding_item(
    alloc: Global,
    name: Name,
    e: Form<Expr>,
) -> Result<Form<Item>, AllocError>
    ensures { IfOk result (λ r. r ≡ binding_item name e) }
{
    let at = name.at;
    let depth = e.depth;
    let tree = Item::Bind(name, e.tree.take());
    let tree = Owned::new(alloc, tree)?;
    Ok(Form { tree, at, depth })
}

/// An expression as an item.
pub(crate) fn expr_item(alloc: Global, e: Form<Expr>) -> Result<Form<Item>, AllocError>
    ensures { IfOk result (λ r. r ≡ expr_item e) }
{
    let Form { tree, at, depth } = e;
    let tree = Item::Do(tree.take());
    let tree = Owned::new(alloc, tree)?;
    Ok(Form { tree, at, depth })
}

/// The place of the first item that is too deep, where this one comes behind.
fn first_deep(before: Option<u32>, at: u32, depth: u32) -> Option<u32>
    ensures { result ≡ first_place before (if nat_lt MOST_ITEM_DEPTH depth then Some at else None) }
{
    match before {
        Some(place) => Some(place),
        None if depth > MOST_ITEM_DEPTH => Some(at),
        None => None,
    }
}

/// One more item.
pub(crate) fn with_item(script: &mut ItemsRead, item: Form<Item>) -> Result<(), AllocError>
    ensures { OnOk result (script.new ≡ with_item script.old item) }
{
    let Form { tree, at, depth } = item;
    script.items.push(tree.take())?;
    script.too_deep = first_deep(script.too_deep, at, depth);
    Ok(())
}
