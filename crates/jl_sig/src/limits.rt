//! Whether the types in a signature are small, as they are written.

ghost use Rattle.std.specs.Prelude.{◌≡◌, ◌<◌, ◌↔◌, IsTrue, map};
ghost use Rattle.jl_model.specs.Counts.{nodes, total};
ghost use Rattle.jl_sig.specs.Parts.{HasWide};

use jl_model::limits::MOST_TYPE_NODES;
use jl_model::ty::Ty;
use jl_types::count::nodes_of_all;
use jl_types::raw::alternatives_within;

/// Whether these types have more than 1,024 nodes in sum.
pub fn have_many_nodes(types: &[Ty]) -> bool
    ensures { IsTrue result ↔ (MOST_TYPE_NODES < total (map nodes types.now)) }
{
    nodes_of_all(types, MOST_TYPE_NODES) > MOST_TYPE_NODES
}

/// Whether one of these, or a part of one, has more than 256 raw alternatives.
pub fn have_wide(types: &[Ty]) -> bool
    ensures { IsTrue result ↔ HasWide types.now }
{
    for ty in types {
        if alternatives_within(ty).is_none() {
            return true;
        }
    }
    false
}
