// The variables that are bound at a place of a rule.
#![tactic(auto)]

ghost use Rattle.std.specs.Prelude.{◌≡◌, ◌<◌, Some};
ghost use Rattle.instr.specs.Stands.{IsVariable, variable_of};
ghost use Rattle.bound_vars.specs.Bound.{has, first_bound, binding};

use ids::Variable;

// Which of the 32 variables are bound.
#[derive(Clone, Copy)]
pub struct Bound {
    pub known: [bool; 32],
}

impl Bound {
    // The variables 0 to n - 1.
    pub fn first(n: usize) -> Self
        ensures { result ≡ first_bound n }
    {
        Bound {
            known: mask::first_marks(n),
        }
    }

    pub fn has(self, v: Variable) -> bool
        ensures { result ≡ has self v.0 }
    {
        self.known.get(usize::from(v)).copied().unwrap_or(false)
    }

    pub fn bind(mut self, v: Variable) -> Self
        requires { v.0 < 32 }
        ensures { result ≡ binding (Some v.0) self }
    {
        self.known[usize::from(v)] = true;
        self
    }

    // With what an instruction binds.
    pub fn bind_dst(self, dst: Option<Variable>) -> Self
        requires { IsVariable (variable_of dst) }
        ensures { result ≡ binding (variable_of dst) self }
    {
        match dst {
            Some(v) => self.bind(v),
            None => self,
        }
    }
}
