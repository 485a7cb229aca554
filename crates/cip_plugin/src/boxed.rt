//! A plugin of any kind in a box.
ghost use Rattle.std.specs.Prelude.{◌≡◌, true, [], ◌∷◌, is_ok};
ghost use Rattle.cip_plugin.specs.Who.{Who};
ghost use Rattle.cip_plugin.specs.Callbacks.{call_for, call_of, has_given, suits};
ghost use Rattle.cip_plugin.specs.Calls.{Init, InitSolve, Asked, ExitSolve, Exit};
ghost use Rattle.cip_plugin.specs.Answers.{answer};
ghost use Rattle.cip_plugin.specs.Asking.{asks, ask_of, answer_of};
ghost use Rattle.cip_plugin.specs.Telling.{Heard};
ghost use Rattle.cip_plugin.specs.declared.kinds.Kind.TheVariants as kinds;

use crate::asking::{Given, Question};
use crate::called::{Callback, Request, call};
use crate::kinds::Kind;
use crate::plugins::{
    BranchRule, ConsHandler, EventHandler, Heuristic, Pricer, Propagator, Separator,
};
use crate::views::View;
use cip_events::EventMask;
use std::alloc::{AllocError, Global};

/// A boxed plugin.
#[derive(Drop)]
pub enum AnyPlugin {
    /// A separator.
    Separator(Box<dyn Separator>),
    /// A propagator.
    Propagator(Box<dyn Propagator>),
    /// A pricer.
    Pricer(Box<dyn Pricer>),
    /// A heuristic.
    Heuristic(Box<dyn Heuristic>),
    /// A branching rule.
    BranchRule(Box<dyn BranchRule>),
    /// A constraint handler.
    ConsHandler(Box<dyn ConsHandler>),
    /// An event handler.
    EventHandler(Box<dyn EventHandler>),
}

/// What is known of a boxed plugin without calling it back.
pub trait Tells {
    ghost who: { Self → Who };

    /// Its kind.
    fn kind(&self) -> Kind
        ensures { result ≡ (who self.now).kind };

    /// Its name.
    fn name(&self) -> &str
        ensures { result.now ≡ (who self.now).label };

    /// Its priority.
    fn priority(&self) -> i32;
}

impl Tells for AnyPlugin {
    ghost use Rattle.cip_plugin.specs.declared.boxed.AnyPlugin.TheVariants as any;

    ghost who = { elim [
      | any.Separator b ↦ record {
        told = (Separator-box b).Plugin.told b.value;
        label = (Separator-box b).Plugin.label b.value;
        kind = kinds.Separator;
      }
      | any.Propagator b ↦ record {
        told = (Propagator-box b).Plugin.told b.value;
        label = (Propagator-box b).Plugin.label b.value;
        kind = kinds.Propagator;
      }
      | any.Pricer b ↦ record {
        told = (Pricer-box b).Plugin.told b.value;
        label = (Pricer-box b).Plugin.label b.value;
        kind = kinds.Pricer;
      }
      | any.Heuristic b ↦ record {
        told = (Heuristic-box b).Plugin.told b.value;
        label = (Heuristic-box b).Plugin.label b.value;
        kind = kinds.Heuristic;
      }
      | any.BranchRule b ↦ record {
        told = (BranchRule-box b).Plugin.told b.value;
        label = (BranchRule-box b).Plugin.label b.value;
        kind = kinds.BranchRule;
      }
      | any.ConsHandler b ↦ record {
        told = (ConsHandler-box b).Plugin.told b.value;
        label = (ConsHandler-box b).Plugin.label b.value;
        kind = kinds.ConsHandler;
      }
      | any.EventHandler b ↦ record {
        told = (EventHandler-box b).Plugin.told b.value;
        label = (EventHandler-box b).Plugin.label b.value;
        kind = kinds.EventHandler;
      }
    ] };

    fn kind(&self) -> Kind {
        match self {
            AnyPlugin::Separator(_) => Kind::Separator,
            AnyPlugin::Propagator(_) => Kind::Propagator,
            AnyPlugin::Pricer(_) => Kind::Pricer,
            AnyPlugin::Heuristic(_) => Kind::Heuristic,
            AnyPlugin::BranchRule(_) => Kind::BranchRule,
            AnyPlugin::ConsHandler(_) => Kind::ConsHandler,
            AnyPlugin::EventHandler(_) => Kind::EventHandler,
        }
    }

    fn name(&self) -> &str {
        match self {
            AnyPlugin::Separator(plugin) => plugin.name(),
            AnyPlugin::Propagator(plugin) => plugin.name(),
            AnyPlugin::Pricer(plugin) => plugin.name(),
            AnyPlugin::Heuristic(plugin) => plugin.name(),
            AnyPlugin::BranchRule(plugin) => plugin.name(),
            AnyPlugin::ConsHandler(plugin) => plugin.name(),
            AnyPlugin::EventHandler(plugin) => plugin.name(),
        }
    }

    fn priority(&self) -> i32 {
        match self {
            AnyPlugin::Separator(plugin) => plugin.priority(),
            AnyPlugin::Propagator(plugin) => plugin.priority(),
            AnyPlugin::Pricer(plugin) => plugin.priority(),
            AnyPlugin::Heuristic(plugin) => plugin.priority(),
            AnyPlugin::BranchRule(plugin) => plugin.priority(),
            AnyPlugin::ConsHandler(plugin) => plugin.priority(),
            AnyPlugin::EventHandler(plugin) => plugin.priority(),
        }
    }
}

/// The callbacks of a plugin of any kind; what each answers, the plugin tells.
impl AnyPlugin {
    /// The kinds of events that it wants; a plugin of another kind than event handlers wants none.
    pub fn interest(&self) -> EventMask {
        match self {
            AnyPlugin::EventHandler(plugin) => plugin.interest(),
            _ => EventMask::empty(),
        }
    }

    /// It is called for a request: what it gives, where it was asked for something. `Err`: it wanted memory that was
    /// refused.
    fn call(&mut self, request: &Request<'_>) -> Result<Option<Given>, AllocError>
        requires { suits (⟦<AnyPlugin as Tells>⟧.who self.old).kind request.now ≡ true }
        ensures heard { Heard (⟦<AnyPlugin as Tells>⟧.who self.old).told
            (call_for request.now result ∷ []) (⟦<AnyPlugin as Tells>⟧.who self.new).told }
        ensures given { has_given request.now result ≡ true }
        ensures kind { (⟦<AnyPlugin as Tells>⟧.who self.new).kind ≡ (⟦<AnyPlugin as Tells>⟧.who self.old).kind }
    {
        match self {
            AnyPlugin::Separator(plugin) => call(plugin, request),
            AnyPlugin::Propagator(plugin) => call(plugin, request),
            AnyPlugin::Pricer(plugin) => call(plugin, request),
            AnyPlugin::Heuristic(plugin) => call(plugin, request),
            AnyPlugin::BranchRule(plugin) => call(plugin, request),
            AnyPlugin::ConsHandler(plugin) => call(plugin, request),
            AnyPlugin::EventHandler(plugin) => call(plugin, request),
        }
    }

    /// It is called back. `Err`: it wanted memory that was refused.
    fn call_back(&mut self, callback: Callback<'_>) -> Result<(), AllocError>
        ensures heard { Heard (⟦<AnyPlugin as Tells>⟧.who self.old).told
            (call_of callback.entry (is_ok result) ∷ []) (⟦<AnyPlugin as Tells>⟧.who self.new).told }
        ensures kind { (⟦<AnyPlugin as Tells>⟧.who self.new).kind ≡ (⟦<AnyPlugin as Tells>⟧.who self.old).kind }
    {
        match self.call(&Request::Callback(callback)) {
            Ok(nothing) => {
                drop(nothing);
                Ok(())
            }
            Err(error) => Err(error),
        }
    }

    /// It was included. `Err`: it wanted memory that was refused.
    pub fn init(&mut self, alloc: Global) -> Result<(), AllocError>
        ensures heard { Heard (⟦<AnyPlugin as Tells>⟧.who self.old).told
            (Init (is_ok result) ∷ []) (⟦<AnyPlugin as Tells>⟧.who self.new).told }
        ensures kind { (⟦<AnyPlugin as Tells>⟧.who self.new).kind ≡ (⟦<AnyPlugin as Tells>⟧.who self.old).kind }
    {
        self.call_back(Callback::Init(alloc))
    }

    /// It was included, and the search is on. `Err`: it wanted memory that was refused.
    pub fn init_solve(&mut self, alloc: Global, view: &View<'_>) -> Result<(), AllocError>
        ensures heard { Heard (⟦<AnyPlugin as Tells>⟧.who self.old).told
            (InitSolve (is_ok result) ∷ []) (⟦<AnyPlugin as Tells>⟧.who self.new).told }
        ensures kind { (⟦<AnyPlugin as Tells>⟧.who self.new).kind ≡ (⟦<AnyPlugin as Tells>⟧.who self.old).kind }
    {
        self.call_back(Callback::InitSolve(alloc, view))
    }

    /// It is freed, or the search ends.
    pub fn exit_solve(&mut self)
        ensures heard { Heard (⟦<AnyPlugin as Tells>⟧.who self.old).told
            (ExitSolve ∷ []) (⟦<AnyPlugin as Tells>⟧.who self.new).told }
        ensures kind { (⟦<AnyPlugin as Tells>⟧.who self.new).kind ≡ (⟦<AnyPlugin as Tells>⟧.who self.old).kind }
    {
        let _answer = self.call_back(Callback::ExitSolve);
    }

    /// It is called no more.
    pub fn exit(&mut self)
        ensures heard { Heard (⟦<AnyPlugin as Tells>⟧.who self.old).told
            (Exit ∷ []) (⟦<AnyPlugin as Tells>⟧.who self.new).told }
        ensures kind { (⟦<AnyPlugin as Tells>⟧.who self.new).kind ≡ (⟦<AnyPlugin as Tells>⟧.who self.old).kind }
    {
        let _answer = self.call_back(Callback::Exit);
    }

    /// What a plugin gives, asked for something that its kind is asked for. `Err`: it wanted memory that was refused.
    pub fn ask(
        &mut self,
        alloc: Global,
        question: Question<'_>,
        view: &View<'_>,
    ) -> Result<Given, AllocError>
        requires { asks (⟦<AnyPlugin as Tells>⟧.who self.old).kind (ask_of question) ≡ true }
        ensures heard { Heard (⟦<AnyPlugin as Tells>⟧.who self.old).told
            (Asked (ask_of question.entry) (answer result answer_of) ∷ []) (⟦<AnyPlugin as Tells>⟧.who self.new).told }
        ensures kind { (⟦<AnyPlugin as Tells>⟧.who self.new).kind ≡ (⟦<AnyPlugin as Tells>⟧.who self.old).kind }
    {
        match self.call(&Request::Question(question, alloc, view)) {
            Ok(Some(given)) => Ok(given),
            Ok(None) => unreachable!(),
            Err(error) => Err(error),
        }
    }
}
