//! The definition that made a world, and the latest deletion of each place.

ghost use Rattle.std.specs.Prelude.{◌≡◌, Some};
ghost use Rattle.jl_methods.specs.Filters.{def_by};
ghost use Rattle.jl_methods.specs.Latest.{renewed, place_number};
ghost use Rattle.jl_methods.specs.Room.{IsRoomy};

use jl_calculus::history::{Change, Def, Del};

/// One more deletion at the end, in place of that of its own place, where there is one.
pub(crate) fn renew_del(latest: &mut Vec<Del>, del: Del)
    requires { IsRoomy latest.old }
    ensures { latest.new.items ≡ renewed place_number latest.old.items del }
{
    latest.retain(|other| other.place != del.place);
    latest.push_reserved(del);
}

/// The definition that made a world, where the change that made it is one.
pub(crate) fn def_by(world: u32, change: Change) -> Option<Def>
    ensures { result ≡ def_by world (Some change) }
{
    match change {
        Change::Def(site) => Some(Def { world, site }),
        Change::Del(_) => None,
    }
}
