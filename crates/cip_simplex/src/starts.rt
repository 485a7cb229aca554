//! Starts: where variables are to be as the moves of the rule begin.
ghost use Rattle.std.specs.Prelude.{◌≡◌, ◌<◌, ◌^◌, length, IfOk};
ghost use Rattle.cip_bland.specs.Tables.{table};
ghost use Rattle.cip_bland.specs.Dictionary as def;
ghost use Rattle.cip_bland.specs.FirstState.{first_stand};
ghost use Rattle.cip_bland.specs.ProgramState.{first_of_program};
ghost use Rattle.cip_simplex.specs.LpShape.{variables};
ghost use Rattle.cip_simplex.specs.Starts as definitions;

use crate::lp::Lp;
use cip_bland::Stand;
use cip_dict::Dict;
use cip_lin::Sides;
use std::alloc::{AllocError, Global};
use std::marker::Model;

/// Of each column and, after them, of each row, whether it is to be basic, else where it is to stand.
#[derive(Drop)]
pub struct Start {
    standing: Vec<Option<Stand>>,
}

impl Model for Start {
    ghost use Rattle.cip_simplex.specs.Starts.{Stands};
    ghost use Rattle.cip_simplex.specs.StartCode.{start_code};

    ghost Value = { Stands };

    ghost coded = { start_code };

    ghost view = { λ s. s.standing.items };
}

/// Where a column with these sides stands at first.
pub(crate) fn stand_first(sides: Sides) -> Stand
    ensures { result ≡ first_stand sides }
{
    match (sides.low, sides.high) {
        (Some(_), _) => Stand::Low,
        (None, Some(_)) => Stand::High,
        (None, None) => Stand::Zero,
    }
}

impl Start {
    /// The start that says this of each variable: `None` where it is to be basic.
    pub fn new(standing: Vec<Option<Stand>>) -> Start
        ensures { result ≡ standing.items }
    {
        Start { standing }
    }

    /// The number of variables.
    pub fn len(&self) -> usize
        ensures { result ≡ length self.now }
    {
        self.standing.len()
    }

    /// Where a variable is to stand; `None` where it is to be basic.
    pub fn stand(&self, v: u32) -> Option<Stand>
        requires { v < length self.now }
        ensures { result ≡ definitions.wish self.now v }
    {
        self.standing[v as usize]
    }

    /// The start of so many variables that says the same of each as this one does; of those that this one has not, that
    /// they are to be basic. `Err` where memory was refused.
    pub fn fitted(&self, alloc: Global, n: usize) -> Result<Start, AllocError>
        ensures same { IfOk result (λ start. start ≡ table n (definitions.wish self.now)) }
        ensures long { IfOk result (λ start. length start ≡ n) }
    {
        let mut standing = Vec::with_capacity(alloc, n)?;
        for v in 0..n {
            let place = if v < self.standing.len() {
                self.standing[v]
            } else {
                None
            };
            standing.push(place)?;
        }
        Ok(Start { standing })
    }

    /// Where the variables are at a state; `Err` where memory was refused.
    pub(crate) fn at(alloc: Global, dict: &Dict) -> Result<Start, AllocError>
        requires { def.size dict.now < 2 ^ 32 }
        ensures { IfOk result (λ start. start ≡ definitions.stands_of dict.now) }
    {
        let mut standing = Vec::with_capacity(alloc, dict.len())?;
        for v in 0..dict.len() {
            standing.push(dict.stand(v as u32))?;
        }
        Ok(Start { standing })
    }

    /// The start of the first state: rows are basic, and each column stands at its low side, else at its high side,
    /// else at 0. `Err` where memory was refused.
    pub fn slack(alloc: Global, lp: &Lp) -> Result<Start, AllocError>
        ensures stands { IfOk result (λ start. start ≡ definitions.stands_of (first_of_program lp.now)) }
        ensures long { IfOk result (λ start. length start ≡ variables lp.now) }
    {
        let sides = lp.sides();
        let n = lp.len();
        let mut standing = Vec::with_capacity(alloc, n)?;
        for v in 0..n {
            let place = if v < sides.len() {
                Some(stand_first(sides[v]))
            } else {
                None
            };
            standing.push(place)?;
        }
        Ok(Start { standing })
    }
}
