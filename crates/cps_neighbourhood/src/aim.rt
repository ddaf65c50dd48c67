//! The solution near which rounds search.

ghost use Rattle.std.specs.Prelude.{◌≡◌, length, vec_len, true, false, IfOk, IfSome, IsNone, Some, None};
ghost use Rattle.cps_neighbourhood.specs.Standing.{solution_of};

use std::alloc::{AllocError, Global};

/// A solution to aim at, if there is one. Its room is made once, so that taking another one cannot fail.
#[derive(Drop)]
pub(crate) struct Aim {
    pub values: Vec<i64>,
    pub is_set: bool,
}

impl Aim {
    /// Room for a solution of `count` values.
    pub fn new(alloc: Global, count: usize) -> Result<Self, AllocError>
        ensures count { IfOk result (λ aim. length aim.values.items ≡ count) }
        ensures unset { IfOk result (λ aim. aim.is_set ≡ false) }
    {
        Ok(Aim {
            values: vec![in alloc; 0; count]?,
            is_set: false,
        })
    }

    /// Takes another solution to aim at.
    pub fn set(&mut self, values: &[i64])
        requires { length values.now ≡ length self.old.values.items }
        ensures { solution_of self.new ≡ Some values.now }
    {
        self.values.as_mut_slice().copy_from_slice(values);
        self.is_set = true;
    }

    /// The solution aimed at.
    pub fn solution(&self) -> Option<&[i64]>
        ensures none { IsNone result → solution_of self.now ≡ None }
        ensures some { IfSome result (λ values. solution_of self.now ≡ Some values.now) }
    {
        if self.is_set {
            Some(self.values.as_slice())
        } else {
            None
        }
    }
}
