ghost use Rattle.std.specs.Prelude.{◌≡◌, ◌&&◌, not};
ghost use Rattle.tm_base.specs.declared.answer.Why.TheVariants.{OptionNotListed};
ghost use Rattle.tm_base.specs.Expanded.{Expanded, array, wrap};
ghost use Rattle.tm_base.specs.Faults.{when};
ghost use Rattle.tm_base.specs.Parts.{is_cell_wrapper, is_option};
ghost use Rattle.tm_base.specs.Weight.{wrapper_weight};
ghost use Rattle.tm_layout.specs.Known.{IsFactsOf};

use crate::facts::Facts;
use crate::faults::{first_fault, weight_fault};
use tm_base::{Why, Wrapper};

/// What is known of an array.
pub fn array(element: Facts, length: u32) -> Facts
    ensures { (t : Expanded) → IsFactsOf t element → IsFactsOf (array t length) result }
{
    let weight = length.saturating_mul(element.weight).max(1);
    let fault = first_fault(None, element.refusal, weight_fault(weight));
    Facts {
        fault,
        refusal: fault.or(element.refusal),
        nullable: false,
        size: length.saturating_mul(element.size),
        weight,
        ..element
    }
}

/// What a wrapper adds to its argument's weight, where that has so many bytes.
fn added_weight(wrapper: Wrapper, size: u32) -> u32
    ensures { result ≡ wrapper_weight wrapper size }
{
    match wrapper {
        Wrapper::Option | Wrapper::MaybeUninit => size,
        _ => 0,
    }
}

/// The fault of a wrapper that is asked whatever its argument is: `Option` of a type that isn't nullable.
fn wrapper_fault(wrapper: Wrapper, nullable: bool) -> Option<Why>
    ensures { result ≡ when (is_option wrapper && not nullable) OptionNotListed }
{
    match wrapper {
        Wrapper::Option if !nullable => Some(Why::OptionNotListed),
        _ => None,
    }
}

/// Whether a wrapper's value may change behind a shared reference.
fn is_cell(wrapper: Wrapper) -> bool
    ensures { result ≡ is_cell_wrapper wrapper }
{
    matches!(wrapper, Wrapper::Cell | Wrapper::UnsafeCell)
}

/// What is known of a wrapper of a type.
pub fn wrapped(wrapper: Wrapper, argument: Facts) -> Facts
    ensures { (t : Expanded) → IsFactsOf t argument → IsFactsOf (wrap wrapper t) result }
{
    let weight = argument
        .weight
        .saturating_add(added_weight(wrapper, argument.size));
    let own = wrapper_fault(wrapper, argument.nullable);
    let fault = first_fault(own, argument.refusal, weight_fault(weight));
    Facts {
        fault,
        refusal: fault.or(argument.refusal),
        nullable: false,
        interior: is_cell(wrapper) || argument.interior,
        weight,
        ..argument
    }
}
