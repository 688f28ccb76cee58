//! Obligations of one target set, which stand side by side where they follow from such.
ghost use Rattle.std.specs.Prelude.{◌≡◌, ◌<◌, ◌≤◌, [], IfOk, length, take};
ghost use Rattle.tm_walk.specs.Obligations.{HaveOneTarget, with_states};

use crate::obligation::Obligation;
use std::alloc::Global;
use tm_auto::StateSet;
use tm_base::Memory;

/// How many obligations, from the first on, are of one target set.
pub fn group_length(obligations: &[Obligation]) -> usize
    requires { 0 < length obligations.now }
    ensures some { 0 < result }
    ensures most { result ≤ length obligations.now }
    ensures one { HaveOneTarget (take result obligations.now) }
{
    let target = obligations[0].target.as_slice();
    let mut end = 1;
    while end < obligations.len() && obligations[end].target.as_slice() == target {
        end += 1;
    }
    end
}

/// The set of the states of some obligations.
pub fn states_of(alloc: Global, obligations: &[Obligation]) -> Result<StateSet, Memory>
    ensures { IfOk result (λ set. set ≡ with_states obligations.now []) }
{
    let mut states = StateSet::new(alloc);
    for obligation in obligations {
        states.insert(obligation.state)?;
    }
    Ok(states)
}
