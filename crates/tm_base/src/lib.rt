//! What every layer speaks of: cells and words, types, questions and the answers to them.
#![tactic(auto)]

mod answer;
mod ask;
mod assume;
mod boxed;
mod cell;
mod copy;
mod definition;
mod ground;
pub mod laws;
mod limit;
mod list;
mod memory;
mod profile;
mod reference;
mod spelling;
mod steps;
mod text;
mod tree;
mod world;

pub use answer::{Answer, LocalRule, RefFault, Rule, Side, Why};
pub use ask::{Ask, AskYes};
pub use assume::Assume;
pub use boxed::Boxed;
pub use cell::{Cell, RefId, Word};
pub use definition::{Bound, Def, DefId, Field, Kind, NamedRow, RefRow, RegionId, Repr, Variant};
pub use ground::{Ground, NamedId, Primitive, Wrapper};
pub use limit::{LimitKind, NameWhy};
pub use list::List;
pub use memory::Memory;
pub use profile::Profile;
pub use reference::{Equal, RefTest};
pub use spelling::text_of;
pub use steps::Steps;
pub use text::Text;
pub use tree::Tree;
pub use world::World;
