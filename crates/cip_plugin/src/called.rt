//! A boxed plugin of each kind, called as those of the other kinds are.
ghost use Rattle.std.specs.Prelude.{◌≡◌, true, List, Option, [], ◌∷◌, is_ok};
ghost use Rattle.cip_plugin.specs.Answers.{answer};
ghost use Rattle.cip_plugin.specs.Asking.{answer_of, ask_of, asks};
ghost use Rattle.cip_plugin.specs.Callbacks.{call_for, call_of, has_given, suits};
ghost use Rattle.cip_plugin.specs.Calls.{Asked, Call};
ghost use Rattle.cip_plugin.specs.Telling.{Heard};
ghost use Rattle.cip_plugin.specs.declared.kinds.Kind.{Kind};
ghost use Rattle.cip_plugin.specs.declared.kinds.Kind.TheVariants as kinds;

use crate::asking::{Given, Question};
use crate::plugins::{
    BranchRule, ConsHandler, EventHandler, Heuristic, Pricer, Propagator, Separator,
};
use crate::views::View;
use std::alloc::{AllocError, Global};

/// One of the callbacks that plugins of all kinds have.
#[derive(Clone, Copy)]
pub(crate) enum Callback<'a> {
    /// It was included.
    Init(Global),
    /// It was included, and the search is on.
    InitSolve(Global, &'a View<'a>),
    /// It is freed, or the search ends.
    ExitSolve,
    /// It is called no more.
    Exit,
}

/// What a boxed plugin is called for.
#[derive(Clone, Copy)]
pub(crate) enum Request<'a> {
    /// One of the callbacks of all kinds.
    Callback(Callback<'a>),
    /// Something that its kind is asked for, with what it is lent.
    Question(Question<'a>, Global, &'a View<'a>),
}

/// What a boxed plugin is called by, whatever its kind is.
pub(crate) trait Called {
    ghost calls: { Self → Option (List Call) };

    ghost kind: { Kind };

    /// Calls it back. `Err`: it wanted memory that was refused.
    fn call_back(&mut self, callback: Callback<'_>) -> Result<(), AllocError>
        ensures { Heard (calls self.old) (call_of callback.entry (is_ok result) ∷ []) (calls self.new) };

    /// Asks it for something that its kind is asked for. `Err`: it wanted memory that was refused.
    fn ask(
        &mut self,
        alloc: Global,
        question: Question<'_>,
        view: &View<'_>,
    ) -> Result<Given, AllocError>
        requires { asks kind (ask_of question) ≡ true }
        ensures { Heard (calls self.old) (Asked (ask_of question.entry) (answer result answer_of) ∷ [])
            (calls self.new) };
}

/// Calls a plugin for a request: what it gives, where it was asked for something. `Err`: it wanted memory that was
/// refused.
pub(crate) fn call<P: Called>(
    plugin: &mut P,
    request: &Request<'_>,
) -> Result<Option<Given>, AllocError>
    requires { suits P.kind request.now ≡ true }
    ensures heard { Heard (P.calls plugin.old) (call_for request.now result ∷ []) (P.calls plugin.new) }
    ensures given { has_given request.now result ≡ true }
{
    match *request {
        Request::Callback(callback) => match plugin.call_back(callback) {
            Ok(()) => Ok(None),
            Err(error) => Err(error),
        },
        Request::Question(question, alloc, view) => match plugin.ask(alloc, question, view) {
            Ok(given) => Ok(Some(given)),
            Err(error) => Err(error),
        },
    }
}

impl Called for Box<dyn Separator> {
    ghost calls = { λ b. (Separator-box b).Plugin.told b.value };

    ghost kind = { kinds.Separator };

    fn call_back(&mut self, callback: Callback<'_>) -> Result<(), AllocError> {
        match callback {
            Callback::Init(alloc) => self.init(alloc),
            Callback::InitSolve(alloc, view) => self.init_solve(alloc, view),
            Callback::ExitSolve => {
                self.exit_solve();
                Ok(())
            }
            Callback::Exit => {
                self.exit();
                Ok(())
            }
        }
    }

    fn ask(
        &mut self,
        alloc: Global,
        question: Question<'_>,
        view: &View<'_>,
    ) -> Result<Given, AllocError> {
        match question {
            Question::Separate => match self.separate(alloc, view) {
                Ok(cuts) => Ok(Given::Cuts(cuts)),
                Err(error) => Err(error),
            },
            _ => unreachable!(),
        }
    }
}

impl Called for Box<dyn Propagator> {
    ghost calls = { λ b. (Propagator-box b).Plugin.told b.value };

    ghost kind = { kinds.Propagator };

    fn call_back(&mut self, callback: Callback<'_>) -> Result<(), AllocError> {
        match callback {
            Callback::Init(alloc) => self.init(alloc),
            Callback::InitSolve(alloc, view) => self.init_solve(alloc, view),
            Callback::ExitSolve => {
                self.exit_solve();
                Ok(())
            }
            Callback::Exit => {
                self.exit();
                Ok(())
            }
        }
    }

    fn ask(
        &mut self,
        alloc: Global,
        question: Question<'_>,
        view: &View<'_>,
    ) -> Result<Given, AllocError> {
        match question {
            Question::Propagate => match self.propagate(alloc, view) {
                Ok(reductions) => Ok(Given::Reductions(reductions)),
                Err(error) => Err(error),
            },
            _ => unreachable!(),
        }
    }
}

impl Called for Box<dyn Pricer> {
    ghost calls = { λ b. (Pricer-box b).Plugin.told b.value };

    ghost kind = { kinds.Pricer };

    fn call_back(&mut self, callback: Callback<'_>) -> Result<(), AllocError> {
        match callback {
            Callback::Init(alloc) => self.init(alloc),
            Callback::InitSolve(alloc, view) => self.init_solve(alloc, view),
            Callback::ExitSolve => {
                self.exit_solve();
                Ok(())
            }
            Callback::Exit => {
                self.exit();
                Ok(())
            }
        }
    }

    fn ask(
        &mut self,
        alloc: Global,
        question: Question<'_>,
        view: &View<'_>,
    ) -> Result<Given, AllocError> {
        match question {
            Question::Price { block, costs } => match self.price(alloc, view, block, costs) {
                Ok(priced) => Ok(Given::Priced(priced)),
                Err(error) => Err(error),
            },
            _ => unreachable!(),
        }
    }
}

impl Called for Box<dyn Heuristic> {
    ghost calls = { λ b. (Heuristic-box b).Plugin.told b.value };

    ghost kind = { kinds.Heuristic };

    fn call_back(&mut self, callback: Callback<'_>) -> Result<(), AllocError> {
        match callback {
            Callback::Init(alloc) => self.init(alloc),
            Callback::InitSolve(alloc, view) => self.init_solve(alloc, view),
            Callback::ExitSolve => {
                self.exit_solve();
                Ok(())
            }
            Callback::Exit => {
                self.exit();
                Ok(())
            }
        }
    }

    fn ask(
        &mut self,
        alloc: Global,
        question: Question<'_>,
        view: &View<'_>,
    ) -> Result<Given, AllocError> {
        match question {
            Question::Search => match self.search(alloc, view) {
                Ok(guesses) => Ok(Given::Guesses(guesses)),
                Err(error) => Err(error),
            },
            _ => unreachable!(),
        }
    }
}

impl Called for Box<dyn BranchRule> {
    ghost calls = { λ b. (BranchRule-box b).Plugin.told b.value };

    ghost kind = { kinds.BranchRule };

    fn call_back(&mut self, callback: Callback<'_>) -> Result<(), AllocError> {
        match callback {
            Callback::Init(alloc) => self.init(alloc),
            Callback::InitSolve(alloc, view) => self.init_solve(alloc, view),
            Callback::ExitSolve => {
                self.exit_solve();
                Ok(())
            }
            Callback::Exit => {
                self.exit();
                Ok(())
            }
        }
    }

    fn ask(
        &mut self,
        alloc: Global,
        question: Question<'_>,
        view: &View<'_>,
    ) -> Result<Given, AllocError> {
        match question {
            Question::Branch => match self.branch(alloc, view) {
                Ok(split) => Ok(Given::Split(split)),
                Err(error) => Err(error),
            },
            _ => unreachable!(),
        }
    }
}

impl Called for Box<dyn ConsHandler> {
    ghost calls = { λ b. (ConsHandler-box b).Plugin.told b.value };

    ghost kind = { kinds.ConsHandler };

    fn call_back(&mut self, callback: Callback<'_>) -> Result<(), AllocError> {
        match callback {
            Callback::Init(alloc) => self.init(alloc),
            Callback::InitSolve(alloc, view) => self.init_solve(alloc, view),
            Callback::ExitSolve => {
                self.exit_solve();
                Ok(())
            }
            Callback::Exit => {
                self.exit();
                Ok(())
            }
        }
    }

    fn ask(
        &mut self,
        alloc: Global,
        question: Question<'_>,
        view: &View<'_>,
    ) -> Result<Given, AllocError> {
        match question {
            Question::Enforce => match self.enforce(alloc, view) {
                Ok(said) => Ok(Given::Enforced(said)),
                Err(error) => Err(error),
            },
            Question::Separate => match self.separate(alloc, view) {
                Ok(cuts) => Ok(Given::Cuts(cuts)),
                Err(error) => Err(error),
            },
            Question::Propagate => match self.propagate(alloc, view) {
                Ok(reductions) => Ok(Given::Reductions(reductions)),
                Err(error) => Err(error),
            },
            _ => unreachable!(),
        }
    }
}

impl Called for Box<dyn EventHandler> {
    ghost calls = { λ b. (EventHandler-box b).Plugin.told b.value };

    ghost kind = { kinds.EventHandler };

    fn call_back(&mut self, callback: Callback<'_>) -> Result<(), AllocError> {
        match callback {
            Callback::Init(alloc) => self.init(alloc),
            Callback::InitSolve(alloc, view) => self.init_solve(alloc, view),
            Callback::ExitSolve => {
                self.exit_solve();
                Ok(())
            }
            Callback::Exit => {
                self.exit();
                Ok(())
            }
        }
    }

    fn ask(
        &mut self,
        alloc: Global,
        question: Question<'_>,
        view: &View<'_>,
    ) -> Result<Given, AllocError> {
        match question {
            Question::OnEvent(event) => match self.on_event(alloc, &event, view) {
                Ok(wishes) => Ok(Given::Wishes(wishes)),
                Err(error) => Err(error),
            },
            _ => unreachable!(),
        }
    }
}
