//! A plugin that tells its calls.
ghost use Rattle.std.specs.Prelude.{◌≡◌, ◌+◌, ◌≤◌, ◌++◌, [], ◌∷◌, Some, None, OnOk, OnErr, true, false, map, codes, vec_len, vec_capacity, if◌then◌else◌};
ghost use Rattle.cip_plugin.specs.Telling.{Heard, endings};
ghost use Rattle.cip_solve_tests.specs.ToldCalls.{told_call};

use crate::told::Told;
use cip_plugin::{Guess, Heuristic, Plugin, View};
use std::alloc::{AllocError, Global};

/// A heuristic that keeps the list of its calls, as long as it has the memory for it, with room for the two last ones.
#[derive(Drop)]
pub struct Teller {
    tells: bool,
    calls: Vec<Told>,
    ghost room: { vec_len calls + 2 ≤ vec_capacity calls + endings (map told_call calls.items) },
}

impl Teller {
    /// One that had no call yet. `Err` comes where a growth was refused.
    pub fn new(alloc: Global) -> Result<Teller, AllocError> {
        Ok(Teller {
            tells: true,
            calls: Vec::with_capacity(alloc, 2)?,
        })
    }

    /// Keeps a call, beside room for the two last ones. `Err` comes where a growth was refused: nothing is told any
    /// more.
    fn keep(&mut self, call: Told) -> Result<(), AllocError>
        requires { endings (told_call call ∷ []) ≡ 0 }
        ensures kept { OnOk result ((self.new.tells ≡ self.old.tells)
            × (self.new.calls.items ≡ self.old.calls.items ++ call ∷ [])) }
        ensures ends { OnErr result (self.new.tells ≡ false) }
    {
        match self.calls.reserve(3) {
            Ok(()) => {
                self.calls.push_reserved(call);
                Ok(())
            }
            Err(error) => {
                self.tells = false;
                Err(error)
            }
        }
    }

    /// Keeps one of the two last calls, where there is room.
    fn keep_last(&mut self, call: Told)
        requires { endings (told_call call ∷ []) ≡ 1 }
        ensures { Heard (if self.old.tells then Some (map told_call self.old.calls.items) else None)
            (told_call call ∷ []) (if self.new.tells then Some (map told_call self.new.calls.items) else None) }
    {
        if self.calls.len() < self.calls.capacity() {
            self.calls.push_reserved(call);
        } else {
            self.tells = false;
        }
    }
}

impl Plugin for Teller {
    ghost told = { λ p. if p.tells then Some (map told_call p.calls.items) else None };

    ghost label = { λ _. codes "teller" };

    fn name(&self) -> &str {
        "teller"
    }

    fn priority(&self) -> i32 {
        1
    }

    fn init(&mut self, _alloc: Global) -> Result<(), AllocError> {
        self.keep(Told::Init)
    }

    fn init_solve(&mut self, _alloc: Global, _view: &View<'_>) -> Result<(), AllocError> {
        self.keep(Told::InitSolve)
    }

    fn exit_solve(&mut self) {
        self.keep_last(Told::ExitSolve);
    }

    fn exit(&mut self) {
        self.keep_last(Told::Exit);
    }
}

impl Heuristic for Teller {
    fn search(&mut self, alloc: Global, _view: &View<'_>) -> Result<Vec<Guess>, AllocError> {
        self.keep(Told::Search)?;
        Ok(Vec::new(alloc))
    }
}
