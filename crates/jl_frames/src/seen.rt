//! What tasks see that are started here.

ghost use Rattle.std.specs.Prelude.{◌≡◌, IfOk, map};
ghost use Rattle.jl_program.specs.Meaning.{datum};

use crate::frames::Frames;
use jl_program::env::Env;
use std::alloc::{AllocError, Global};

impl<'p> Frames<'p> {
    /// The slots of the body that runs, as what a task sees that it starts. Chunks of them that were shared before are shared again.
    pub fn share_env(&mut self, alloc: Global) -> Result<Env, AllocError>
        ensures env { IfOk result (λ env. env ≡ map datum self.old.env) }
        ensures same { self.new ≡ self.old }
    {
        let env = jl_value::share_env(alloc, &self.seen, self.env())?;
        // Fewer values have no chunk for a later task.
        if !env.parts().0.is_empty() {
            self.seen = env.copy()?;
        }
        Ok(env)
    }

    /// These values were shared with the task itself: those that it starts may share them too.
    pub fn see(&mut self, env: Env)
        ensures { self.new ≡ self.old }
    {
        self.seen = env;
    }
}
