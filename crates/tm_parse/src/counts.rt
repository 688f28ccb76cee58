ghost use Rattle.std.specs.Prelude.{◌≡◌};
ghost use Rattle.tm_parse.specs.Events.{a_type, mark as counted};
ghost use Rattle.tm_parse.specs.Counting.{none_yet, step};
ghost use Rattle.tm_parse.specs.Reads.{IsMore, IsStep};

use crate::mark::Mark;
use tm_base::LimitKind;

/// How many of each counted thing have begun.
///
/// `definitions`, `questions` and `lifetimes` are the file's; `parameters` (which are lifetimes),
/// `type_parameters`, `fields` and `variants` are those of the definition that began last; `nodes` are
/// the types in the outermost type that began last.
#[derive(Clone, Copy)]
pub struct Counts {
    pub definitions: u32,
    pub questions: u32,
    pub lifetimes: u32,
    pub parameters: u32,
    pub type_parameters: u32,
    pub fields: u32,
    pub variants: u32,
    pub nodes: u32,
}

/// One more than so many, where the limit lets that pass.
fn one_more(count: u32, limit: LimitKind) -> Result<u32, LimitKind>
    ensures { IsMore count limit result }
{
    if count >= limit.number() {
        return Err(limit);
    }
    Ok(count + 1)
}

impl Counts {
    /// Before a file's first terminal nothing is counted.
    pub fn none_yet() -> Counts
        ensures { result ≡ none_yet }
    {
        Counts {
            definitions: 0,
            questions: 0,
            lifetimes: 0,
            parameters: 0,
            type_parameters: 0,
            fields: 0,
            variants: 0,
            nodes: 0,
        }
    }

    /// The counts where one more thing has begun, or the limit that it passes. Parameters, fields and
    /// variants are counted anew in each definition, and types in each outermost one.
    #[tactic(auto, unfolding(crate::specs::Counting::step))]
    pub fn with(self, mark: Mark) -> Result<Counts, LimitKind>
        ensures { IsStep result (step self (counted mark)) }
    {
        match mark {
            Mark::Definition => Ok(Counts {
                definitions: one_more(self.definitions, LimitKind::Definitions)?,
                parameters: 0,
                type_parameters: 0,
                fields: 0,
                variants: 0,
                ..self
            }),
            Mark::Question => Ok(Counts {
                questions: one_more(self.questions, LimitKind::Questions)?,
                ..self
            }),
            Mark::Lifetime => Ok(Counts {
                lifetimes: one_more(self.lifetimes, LimitKind::Lifetimes)?,
                ..self
            }),
            Mark::Parameter => Ok(Counts {
                parameters: one_more(self.parameters, LimitKind::Parameters)?,
                ..self
            }),
            Mark::TypeParameter => Ok(Counts {
                type_parameters: one_more(self.type_parameters, LimitKind::TypeParameters)?,
                ..self
            }),
            Mark::Field => Ok(Counts {
                fields: one_more(self.fields, LimitKind::Fields)?,
                ..self
            }),
            Mark::Variant => Ok(Counts {
                variants: one_more(self.variants, LimitKind::Variants)?,
                ..self
            }),
            Mark::TypeWithin(depth) => self.with_type(depth),
        }
    }

    /// The counts with one more type, which has so many around it.
    #[tactic(auto, unfolding(crate::specs::Counting::step))]
    fn with_type(self, depth: u32) -> Result<Counts, LimitKind>
        ensures { IsStep result (step self (counted (a_type depth))) }
    {
        one_more(depth, LimitKind::Nesting)?;
        let before = if depth == 0 { 0 } else { self.nodes };
        Ok(Counts {
            nodes: one_more(before, LimitKind::TypeNodes)?,
            ..self
        })
    }
}
