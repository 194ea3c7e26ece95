//! Scripts with their texts.

/// A task runs in the world that spawned it.
const LATE: &str =
    "f() = 1\nlate() = f()\nt = Threads.@spawn late()\nf() = 2\nprintln(fetch(t))\nprintln(f())\n";
/// What a task defines is there for those that come after it.
const MAKE: &str =
    "function make()\n@eval g() = 7\n0\nend\nt = Threads.@spawn make()\nfetch(t)\nprintln(g())\n";
/// A task that fetches one that failed fails.
const FETCHED_FAULT: &str = "t = Threads.@spawn div(1, 0)\nfetch(t)\n";
/// A task that failed and is not fetched writes nothing.
const LOST_FAULT: &str = "t = Threads.@spawn div(1, 0)\n";
/// The outputs of the tasks come in path order.
const OUTPUTS: &str =
    "function say(n::Int64)\nprintln(n)\nn == 0 ? 0 : fetch(Threads.@spawn say(n - 1))\nend\na = Threads.@spawn say(2)\nb = Threads.@spawn say(1)\nprintln(9)\nfetch(b)\n";
/// Tasks spawn tasks to a depth of 500, and each waits for its own.
const DEEP: &str =
    "function deep(n::Int64)\nif n == 0\nreturn 0\nend\nt = Threads.@spawn deep(n - 1)\nfetch(t) + 1\nend\nprintln(deep(500))\n";
/// 64 tasks wait for one.
const MANY_WAIT: &str =
    "work(n::Int64) = n == 0 ? 1 : work(n - 1)\nfunction wait_for(n::Int64, t)\nif n == 0\nreturn 0\nend\na = Threads.@spawn fetch(t)\nrest = wait_for(n - 1, t)\nfetch(a) + rest\nend\nt = Threads.@spawn work(10000)\nprintln(wait_for(64, t))\n";
/// Types, dispatch, tasks, and a method that is evaluated.
pub(crate) const SHAPES: &str =
    "# shapes and materials\nabstract type Shape end\nabstract type Round <: Shape end\nstruct Square <: Shape\n    side::Int64\nend\nstruct Rect <: Shape\n    w::Int64\n    h::Int64\nend\nstruct Ring <: Round\n    outer::Int64\n    inner::Int64\nend\nabstract type Material end\nstruct Wood <: Material end\nstruct Iron <: Material end\nstruct Part{S<:Shape, M<:Material}\n    shape::S\n    made::M\nend\nstruct Duo{A, B}\n    first::A\n    second::B\nend\nstruct List{T}\n    head::T\n    tail::Union{List{T}, Nothing}\nend\n\narea(s::Square) = s.side * s.side\narea(s::Rect) = s.w * s.h\narea(s::Ring) = 3 * (s.outer * s.outer - s.inner * s.inner)\nweight(m::Material) = 1\nweight(m::Iron) = 8\nmass(p::Part) = area(p.shape) * weight(p.made)\nmass(p::Part{<:Round}) = area(p.shape) * weight(p.made) + 1\nmass(d::Duo) = mass(d.first) + mass(d.second)\nmass(x::Nothing) = 0\ntotal(l::Nothing) = 0\ntotal(l::List{T}) where T = mass(l.head) + total(l.tail)\nkind(p::Part{S, M}, q::Part{S, M}) where {S, M} = 2\nkind(p::Part, q::Part) = 1\nfunction build(n::Int64)\n    if n == 0\n        return nothing\n    end\n    List{Any}(Part(Square(n), Iron()), build(n - 1))\nend\nfunction spread(n::Int64)\n    if n == 0\n        return 0\n    end\n    t = Threads.@spawn total(build(n))\n    rest = spread(n - 1)\n    fetch(t) + rest\nend\nfunction heavier()\n    @eval weight(m::Wood) = 2\n    nothing\nend\n\nprintln(\"area \", area(Ring(3, 1)))\nprintln(mass(Part(Rect(2, 5), Wood())))\nprintln(mass(Part(Ring(3, 1), Iron())))\nprintln(mass(Duo(Part(Square(2), Wood()), nothing)))\nprintln(kind(Part(Square(1), Wood()), Part(Square(2), Wood())))\nprintln(kind(Part(Square(1), Wood()), Part(Square(2), Iron())))\nprintln(spread(8))\nheavier()\nprintln(mass(Part(Rect(2, 5), Wood())))\nprintln(Part(Square(1), Wood()))\n";
/// What it writes.
pub(crate) const SHAPES_TEXT: &str =
    "area 24\n10\n193\n4\n2\n1\n4320\n20\nPart{Square, Wood}(Square(1), Wood())\n";

/// Scripts that write the same whatever the schedule.
pub(crate) const SCRIPTS: [(&str, &str); 8] = [
    (LATE, "1\n2\n"),
    (MAKE, "7\n"),
    (FETCHED_FAULT, "ERROR: TaskFailedException: task 1\n"),
    (LOST_FAULT, ""),
    (OUTPUTS, "9\n2\n1\n0\n1\n0\n"),
    (DEEP, "500\n"),
    (MANY_WAIT, "64\n"),
    (SHAPES, SHAPES_TEXT),
];

/// Two tasks that call one function.
pub(crate) const PAIR: &str =
    "f(x) = x\na = Threads.@spawn f(1)\nb = Threads.@spawn f(2)\nprintln(fetch(a) + fetch(b))\n";

/// All worlds are made.
pub(crate) const MORE: &str =
    "function more(n::Int64)\n@eval g() = 1\nn == 1 ? 0 : more(n - 1)\nend\nprintln(more(65520))\nprintln(more(1))\n";

/// All tasks are started.
pub(crate) const MANY: &str =
    "function many(n::Int64)\nt = Threads.@spawn 0\nn == 1 ? 0 : many(n - 1)\nend\nprintln(many(4095))\nprintln(many(1))\n";

/// Two tasks define one method.
pub(crate) const RACE: &str =
    "f() = 0\nfunction one()\n@eval f() = 1\n0\nend\nfunction two()\n@eval f() = 2\n0\nend\na = Threads.@spawn one()\nb = Threads.@spawn two()\nfetch(a)\nfetch(b)\nprintln(f())\n";
