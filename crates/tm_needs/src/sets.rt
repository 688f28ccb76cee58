ghost use Rattle.std.specs.Prelude.{◌≡◌, ◌<◌, ◌↔◌, IsTrue, Contains};
ghost use Rattle.tm_base.specs.declared.assume.Assume.{Assume};
ghost use Rattle.tm_base.specs.Assumptions.{Includes};
ghost use Rattle.tm_needs.specs.Numbers.{number_of};
ghost use Rattle.tm_needs.specs.Least.{IncludesSome};

use tm_base::Assume;

/// The set of assumptions with a number below 16.
pub fn set_of(number: u32) -> Assume
    requires { number < 16 }
    ensures { number_of result ≡ number }
{
    Assume {
        alignment: number % 2 == 1,
        lifetimes: number / 2 % 2 == 1,
        safety: number / 4 % 2 == 1,
        validity: number / 8 == 1,
    }
}

/// Whether a set has all the assumptions of one of some sets.
pub fn includes_some(more: Assume, sets: &[Assume]) -> bool
    ensures { IsTrue result ↔ IncludesSome more sets.now }
{
    sets.iter().any(|set| more.has(*set))
}
