//! The grammar of question files: what a list of terminals spells, the limits that it may pass, and where
//! a list stops that begins no file.
#![tactic(auto)]

mod class;
mod classify;
mod counts;
mod laws;
mod mark;
mod parsed;
mod parsing;
mod reader;
mod stop;
mod terminal;
mod vocabulary;

pub use class::Class;
pub use classify::terminals;
pub use counts::Counts;
pub use laws::{files_declare_names, files_keep_limits, grammar_is_exact};
pub use parsed::{
    Decl, DeclAsk, DeclBound, DeclField, DeclRepr, DeclVariant, Expr, Parsed, ReprItem,
};
pub use parsing::{ParseErr, parse};
pub use terminal::Terminal;
