//! What comes next in a lent program, and what a turn of the machine's own may change.

ghost use Rattle.std.specs.Prelude.{◌≡◌, MatchOption};

use jl_calculus::history::Outcome;
use jl_frames::Frames;
use jl_model::rows::Row;
use jl_program::tree::{Expr, Item, Piece};

/// What comes next. It names no value: a value that is given is the one open value, the values of an expression whose parts are evaluated are
/// the open ones, and an outcome stands beside.
#[derive(Clone, Copy)]
pub enum LentWork<'p> {
    Eval(&'p Expr),
    Give,
    /// A `return` with the one open value.
    Leave,
    /// An expression whose parts are the open values.
    Acting(&'p Expr),
    /// A call of a function in a world, whose arguments are the open values.
    Calling(u32, u32),
    /// Whether each statement sees no names, and the statements at the top or of an evaluated block that are left. The value of the one
    /// before is open.
    Items(bool, &'p [Item]),
    /// A definition that has looked: whether each statement after it sees no names, its site, and the statements after it.
    Defining(bool, u32, &'p [Item]),
    /// Whether a newline follows the pieces of a `print`, and the pieces that are left. Their text so far is open.
    Pieces(bool, &'p [Piece]),
    Ended,
    /// After want of memory.
    Lost,
}

impl<'p> LentWork<'p> {
    /// The same, if it is one of those that come most often. It is made anew: then the compiler knows that a loop over these keeps nothing but
    /// which it is and an expression.
    #[inline(always)]
    pub(crate) fn often(self) -> Option<LentWork<'p>>
        ensures { MatchOption result (Unit {0}) (λ same. same ≡ self.entry) }
    {
        match self {
            LentWork::Eval(expr) => Some(LentWork::Eval(expr)),
            LentWork::Give => Some(LentWork::Give),
            LentWork::Acting(expr) => Some(LentWork::Acting(expr)),
            _ => None,
        }
    }
}

/// What a turn of the machine's own may change, but for what comes next.
#[derive(Drop)]
pub struct LentNow<'p> {
    pub world: u32,
    pub room: u32,
    pub frames: Frames<'p>,
    pub out: Row<u8>,
    /// How the task ended, where it did.
    pub outcome: Outcome,
}
