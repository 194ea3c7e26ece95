//! The prelude: its functions, and its operations, which are the first definition sites of each program. An operation is a
//! row of `OPERATIONS` here, a row of `operations` in `specs/Prelude`, and a case of what operations mean.

ghost use Rattle.std.specs.Prelude.{◌≡◌, map};
ghost use Rattle.jl_program.specs.Prelude.{prelude_functions, operations, operation_of};

/// How many functions the prelude has, and the number of the first function of a script.
pub const PRELUDE_FUNCTIONS: u32 = 12;
/// How many operations it has, and the first site of a script.
pub const PRELUDE_SITES: u32 = 14;
/// The world in which the root of a script begins: each operation has made one.
pub const FIRST_WORLD: u32 = 14;

pub const PLUS: u32 = 0;

pub const MINUS: u32 = 1;

pub const TIMES: u32 = 2;

pub const DIV: u32 = 3;

pub const REM: u32 = 4;

pub const EQUAL: u32 = 5;

pub const NOT_EQUAL: u32 = 6;

pub const LESS: u32 = 7;

pub const LESS_EQUAL: u32 = 8;

pub const GREATER: u32 = 9;

pub const GREATER_EQUAL: u32 = 10;

pub const NOT: u32 = 11;
/// The names of the functions, by their numbers.
const FUNCTION_NAMES: [&str; 12] = [
    "+", "-", "*", "div", "rem", "==", "!=", "<", "<=", ">", ">=", "!",
];

/// What the prelude does without a body.
#[derive(Clone, Copy)]
pub enum Operation {
    Add,
    Subtract,
    Multiply,
    Divide,
    Remainder,
    Negate,
    Equal,
    NotEqual,
    Less,
    LessEqual,
    Greater,
    GreaterEqual,
    Not,
    EqualTruths,
}

/// The parameters of an operation.
#[derive(Clone, Copy)]
pub enum Shape {
    Integer,
    Integers,
    Truth,
    Truths,
}

/// The operations by their sites, each with the function of which it is a method, and with its parameters.
const OPERATIONS: [(Operation, u32, Shape); 14] = [
    (Operation::Add, PLUS, Shape::Integers),
    (Operation::Subtract, MINUS, Shape::Integers),
    (Operation::Multiply, TIMES, Shape::Integers),
    (Operation::Divide, DIV, Shape::Integers),
    (Operation::Remainder, REM, Shape::Integers),
    (Operation::Negate, MINUS, Shape::Integer),
    (Operation::Equal, EQUAL, Shape::Integers),
    (Operation::NotEqual, NOT_EQUAL, Shape::Integers),
    (Operation::Less, LESS, Shape::Integers),
    (Operation::LessEqual, LESS_EQUAL, Shape::Integers),
    (Operation::Greater, GREATER, Shape::Integers),
    (Operation::GreaterEqual, GREATER_EQUAL, Shape::Integers),
    (Operation::Not, NOT, Shape::Truth),
    (Operation::EqualTruths, EQUAL, Shape::Truths),
];

/// The names of the functions, by their numbers.
pub fn function_names() -> [&'static str; 12]
    ensures { map (λ w. w.now) result ≡ prelude_functions }
{
    FUNCTION_NAMES
}

/// The operations by their sites, each with the function of which it is a method, and with its parameters.
pub fn operations() -> [(Operation, u32, Shape); 14]
    ensures { result ≡ operations }
{
    OPERATIONS
}

impl Operation {
    /// The operation of a site; none where the site is one of a script.
    pub fn of_site(site: u32) -> Option<Operation>
        ensures { result ≡ operation_of site }
    {
        match operations().as_slice().get(site as usize) {
            None => None,
            Some((operation, _, _)) => Some(*operation),
        }
    }
}
