ghost use Rattle.std.specs.Prelude.{◌≡◌};
ghost use Rattle.tm_base.specs.Weight.{named_weight, sum_from, variants_sum_from};
ghost use Rattle.tm_layout.specs.Capped.{capped};
ghost use Rattle.tm_layout.specs.Reckoned.{variant_weights_in, weights_in};

use crate::enums::tag_layout;
use crate::facts::Facts;
use crate::fields::only;
use tm_base::{Kind, List, Profile, Repr};

/// The weights of some fields together, each counted as `least` at least.
fn weight_sum(least: u32, fields: &[Facts]) -> u32
    ensures { result ≡ capped (sum_from least (weights_in fields.now)) }
{
    let mut sum: u32 = 0;
    for field in fields {
        sum = sum.saturating_add(least.max(field.weight));
    }
    sum
}

/// The weights of some variants together, each with its tag and counted as `least` at least.
fn variant_sum(least: u32, tag: u32, variants: &[List<Facts>]) -> u32
    ensures { result ≡ capped (variants_sum_from least tag (variant_weights_in variants.now)) }
{
    let mut sum: u32 = 0;
    for fields in variants {
        let weight = tag.saturating_add(weight_sum(0, fields.as_slice()));
        sum = sum.saturating_add(least.max(weight));
    }
    sum
}

/// The weight of a definition with so many bytes.
pub fn weight_in(
    profile: Profile,
    kind: Kind,
    repr: Repr,
    size: u32,
    variants: &[List<Facts>],
) -> u32
    ensures { result ≡ capped
        (named_weight profile kind repr size (variant_weights_in variants.now)) }
{
    let least = size.max(1);
    match kind {
        Kind::Struct => least.max(weight_sum(0, only(variants))),
        Kind::Union => weight_sum(least, only(variants)),
        Kind::Enum => variant_sum(least, tag_layout(profile, repr.tag).size, variants),
    }
}
