//! The trees of texts: words and types, interfaces, expressions, and bodies.
#![tactic(auto)]

mod body;
mod expression;
mod interface;
mod words;

pub use body::{BlockText, BodyFile, BodyText, MainFile, StmtText};
pub use expression::ExprText;
pub use interface::{Export, IdlFile, IdlInterface, Item, Modifier, Param};
pub use words::{TypeName, Word};
