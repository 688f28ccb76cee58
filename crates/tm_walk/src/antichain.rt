ghost use Rattle.std.specs.Prelude.{◌≡◌, [], OnOk};
ghost use Rattle.std.specs.List.{list_any};
ghost use Rattle.tm_walk.specs.Obligations.{AreAdded, is_refused, implied_by};

use crate::live::is_live;
use crate::obligation::Obligation;
use std::alloc::Global;
use std::marker::Model;
use tm_base::Memory;

/// Obligations of which none implies another. Contracts see their list.
#[derive(Drop)]
pub struct Antichain {
    obligations: Vec<Obligation>,
}

impl Model for Antichain {
    ghost use Rattle.std.specs.Prelude.{List};
    ghost use Rattle.tm_walk.specs.declared.obligation.Obligation.{Obligation};
    ghost use Rattle.tm_walk.specs.Obligations.{IsAntichain};

    ghost Value = { List Obligation };

    ghost view = { λ antichain. antichain.obligations.items };

    ghost invariant = { λ antichain. IsAntichain antichain.obligations.items };
}

impl Antichain {
    /// No obligations. It takes no memory.
    pub fn new(alloc: Global) -> Antichain
        ensures { result ≡ [] }
    {
        Antichain {
            obligations: Vec::new(alloc),
        }
    }

    /// The obligations.
    pub fn as_slice(&self) -> &[Obligation]
        ensures { result.now ≡ self.now }
    {
        self.obligations.as_slice()
    }

    /// Adds an obligation, unless one of these implies it, and drops those that it implies.
    pub fn add(&mut self, obligation: Obligation) -> Result<(), Memory>
        ensures { OnOk result (AreAdded (λ other. other ≡ obligation) self.old self.new) }
    {
        if self.implies(&obligation) {
            return Ok(());
        }
        self.obligations.retain(|other| !obligation.implies(other));
        self.obligations.push(obligation)?;
        Ok(())
    }

    /// Whether one of these implies the obligation.
    fn implies(&self, obligation: &Obligation) -> bool
        ensures { result ≡ list_any (implied_by obligation.now) self.now }
    {
        self.obligations
            .iter()
            .any(|other| other.implies(obligation))
    }

    /// Whether there is an obligation that no state of the target is left to meet.
    pub fn is_refused(&self) -> bool
        ensures { result ≡ list_any is_refused self.now }
    {
        self.obligations
            .iter()
            .any(|obligation| !is_live(&obligation.target))
    }
}
