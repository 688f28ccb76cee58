//! What answers say.

ghost use Rattle.tm_laws.specs.AnswerLaws.{AnswersMeanWhatTheySay, NoesShowWhy};

use tm_base::World;

/// An answer is a refusal exactly where a type isn't judged, a yes exactly where a value of the source
/// may be taken as one of the target, and a no exactly where it may not.
pub fn answers_mean_what_they_say(world: &World)
    ensures { AnswersMeanWhatTheySay world.now }
{}

/// A no at a cell names a cell of the target, and the two references where its rule speaks of some.
pub fn noes_show_why(world: &World)
    ensures { NoesShowWhy world.now }
{}
