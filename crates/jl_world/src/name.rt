//! Which run it is.

use std::marker::Brand;

/// The name of a run: which words they are, and what they are about. Whoever makes the `Blank` picks it, for the call of a
/// function that is generic in it.
pub trait Naming {
    ghost use Rattle.atomic_table.specs.Seated.{TableId};
    ghost use Rattle.jl_world.specs.declared.about.About.{About};

    ghost table: { TableId };

    ghost about: { About };
}

impl Naming for Brand {
    ghost use Rattle.jl_world.specs.Rule.{no_table, no_about};

    ghost table = { no_table };

    ghost about = { no_about };
}
