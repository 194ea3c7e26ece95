//! The bounds of the variables of a row.

ghost use Rattle.std.specs.Prelude.{◌≡◌, ◌<◌, ◌≤◌, MatchOption, length, get_or};
ghost use Rattle.jl_model.specs.Rows.{free};
ghost use Rattle.jl_model.specs.declared.ty.Ty.TheVariants as W;
ghost use Rattle.jl_subsig.specs.Side.{tops, IsLong};

use jl_model::ty::{Bound, Ty};
use jl_sig::Sig;
use jl_sig::row::SigRow;

/// The upper bound of a variable or an atom of a row, where `bounds` are the bounds of the signature's variables: of a
/// diagonal variable the alternative that it takes in the row, of an atom its own. Of another number it is `Any`.
pub fn top<'a>(bounds: &'a [Bound], sig: &'a Sig, row: &'a SigRow, number: usize) -> Option<&'a Ty>
    requires { IsLong bounds.now sig.now row.now }
    ensures { MatchOption result (tops bounds.now sig.now row.now number ≡ W.Any) (λ t. tops bounds.now sig.now row.now number ≡ t.now) }
{
    let width = bounds.len();
    if number < width {
        if sig.diagonals()[number] {
            return Some(&row.chosen.as_slice()[number]);
        }
        return Some(&bounds[number].high);
    }
    if width == 0 {
        return None;
    }
    let alternatives = &sig.alternatives()[number % width];
    alternatives.as_slice().get(number / width - 1)
}

/// The lower bound of a variable, where `bounds` are the bounds of the signature's variables. An atom has none.
pub fn low(bounds: &[Bound], number: u32) -> Option<&Ty>
    ensures { MatchOption result (length bounds.now ≤ number) (λ t. (number < length bounds.now) × (t.now ≡ (get_or bounds.now number free).low)) }
{
    let variable = number as usize;
    if variable < bounds.len() {
        return Some(&bounds[variable].low);
    }
    None
}
