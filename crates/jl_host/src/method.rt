//! Methods of a host program, which are handed in beside the fact about their answers.

ghost use Rattle.std.specs.Prelude.{◌≡◌, ◌<◌, ◌≤◌, ℕ, ℤ, Bool, IsTrue, FitsSigned, length, map};
ghost use Rattle.std.specs.Int.{w64};
ghost use Rattle.std.specs.List.{All};
ghost use Rattle.jl_host.specs.Methods.{AreNumbered};
ghost use Rattle.jl_host.specs.declared.method.TheConstants.{MOST_METHODS};

use std::marker::PhantomData;

/// How many methods a host may have.
pub const MOST_METHODS: usize = 16;

/// Which answers the methods of a host may give.
pub trait Relation {
    /// Whether the method of a number may answer the third number for the first two.
    ghost allows: { ℕ → ℤ → ℤ → ℤ → Bool };
}

/// A function of a host, for a number. What it answers is allowed by the relation: `new` asks for that fact. No value can hold a fact
/// over a relation beside a function, so the calls that ask a method have it as a condition again.
#[derive(Drop)]
pub struct HostMethod<R> {
    pub number: u32,
    pub run: fn(i64, i64) -> i64,
    relation: PhantomData<R>,
    ghost callable: { (a b : ℤ) → FitsSigned w64 a → FitsSigned w64 b → pre run a b },
}

impl<R: Relation> HostMethod<R> {
    /// Keeps a function, each of whose answers the relation allows.
    pub fn new(number: u32, run: fn(i64, i64) -> i64) -> HostMethod<R>
        requires callable { (a b : ℤ) → FitsSigned w64 a → FitsSigned w64 b → pre run a b }
        requires related { (a b c : ℤ) → post run a b c → IsTrue (R.allows number a b c) }
        ensures number { result.number ≡ number }
        ensures related { (a b c : ℤ) → post result.run a b c → IsTrue (R.allows result.number a b c) }
    {
        HostMethod {
            number,
            run,
            relation: PhantomData,
        }
    }

    /// The answer for two numbers.
    fn call(&self, a: i64, b: i64) -> i64
        requires { (a b c : ℤ) → post self.now.run a b c → IsTrue (R.allows self.now.number a b c) }
        ensures { IsTrue (R.allows self.now.number a b result) }
    {
        (self.run)(a, b)
    }
}

/// The methods of a host, in the order of their numbers.
#[derive(Drop)]
pub struct Hosts<R> {
    pub list: Vec<HostMethod<R>>,
    ghost few: { length list.items ≤ MOST_METHODS },
    ghost numbered: { AreNumbered (map (λ m. m.number) list.items) },
}

impl<R: Relation> Hosts<R> {
    /// Keeps the methods of a host.
    pub fn new(list: Vec<HostMethod<R>>) -> Hosts<R>
        requires few { length list.items ≤ MOST_METHODS }
        requires numbered { AreNumbered (map (λ m. m.number) list.items) }
        ensures { result.list ≡ list }
    {
        Hosts { list }
    }

    /// How many methods there are.
    pub fn count(&self) -> u32
        ensures { result ≡ length self.now.list.items }
    {
        self.list.len() as u32
    }

    /// The answer of a method for two numbers.
    pub fn call(&self, n: u32, a: i64, b: i64) -> i64
        requires number { n < length self.now.list.items }
        requires related { All (λ m. (a b c : ℤ) → post m.run a b c → IsTrue (R.allows m.number a b c)) self.now.list.items }
        ensures { IsTrue (R.allows n a b result) }
    {
        self.list[n as usize].call(a, b)
    }
}
