// The footprints of one session.
ghost use Rattle.std.specs.Prelude.{◌≡◌, ◌↔◌, [], ◌∷◌, ◌++◌, IsTrue, IfSome, IfNone, IfOk, OnErr, max};
ghost use Rattle.std.specs.List.{reduce};
ghost use Rattle.footprints.specs.Longest.{lengths_on};

use crate::footprint::Footprint;
use std::alloc::{AllocError, Global};
use std::marker::Model;

/// A footprint as it stands on a session's stack.
#[derive(Clone, Copy, Debug, PartialEq, Eq)]
pub struct Standing {
    /// The footprint.
    pub footprint: Footprint,
    /// The longest value on its record before it, where the session had a footprint there.
    pub before: Option<u8>,
}

/// The footprints of a session, the last one last. Each knows the longest length on its record before it.
#[derive(Drop)]
pub struct Stack {
    list: Vec<Standing>,
}

impl Model for Stack {
    ghost use Rattle.std.specs.Prelude.{List, []};
    ghost use Rattle.footprints.specs.declared.footprint.Footprint.{Footprint};
    ghost use Rattle.footprints.specs.Stacks.{shown, Remember};

    ghost Value = { List Footprint };

    ghost view = { λ s. shown s.list.items };

    ghost invariant = { λ s. Remember [] s.list.items };
}

impl Stack {
    /// No footprint.
    pub fn new(alloc: Global) -> Stack
        ensures { result ≡ [] }
    {
        Stack {
            list: Vec::new(alloc),
        }
    }

    /// Another footprint, and the longest length on its record before it. Where memory is wanting nothing is changed.
    pub fn push(&mut self, footprint: Footprint, before: Option<u8>) -> Result<(), AllocError>
        requires { before ≡ reduce max (lengths_on footprint.number self.old) }
        ensures ok { IfOk result (λ _. self.new ≡ self.old ++ footprint ∷ []) }
        ensures err { OnErr result (self.new ≡ self.old) }
    {
        self.list.push(Standing { footprint, before })?;
        Ok(())
    }

    /// Whether there is no footprint.
    pub fn is_empty(&self) -> bool
        ensures { IsTrue result ↔ (self.now ≡ []) }
    {
        self.list.is_empty()
    }

    /// The last footprint goes, where there is one.
    pub fn pop(&mut self) -> Option<Standing>
        ensures last { IfSome result (λ last. self.old ≡ self.new ++ last.footprint ∷ []) }
        ensures before { IfSome result (λ last. last.before
            ≡ reduce max (lengths_on last.footprint.number self.new)) }
        ensures none { IfNone result (self.old ≡ []) }
        ensures still { IfNone result (self.new ≡ []) }
    {
        let last = self.list.pop()?;
        Some(last)
    }
}
