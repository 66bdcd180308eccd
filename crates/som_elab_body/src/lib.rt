//! Elaborates expressions, statements and blocks: the named and typed code that the text of one body stands for, or the
//! first thing that is wrong with it.
#![tactic(auto)]

mod body;
mod body_context;
mod calls;
mod expressions;
mod fault;
mod leaves;
mod local;
mod methods;
mod names;
mod operators;
mod parent_calls;
mod parts;
mod plain_statements;
mod scoping;
mod statements;
mod typed_expr;

pub use body::{main_body, method_body};
pub use body_context::BodyContext;
pub use expressions::{expression, value_expression};
pub use fault::BodyFault;
pub use local::Local;
pub use names::{local_of, variable_place};
pub use typed_expr::TypedExpr;
