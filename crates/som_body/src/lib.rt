//! The parser of bodies of methods and mains of clients: the one syntax tree of a text, or the first token that doesn't fit
//! or nests too deep.
//!
//! `specs/Grammar.antt` is the grammar of expressions and `specs/Statements.antt` that of statements. `specs/Reading.antt` and
//! `specs/StatementReading.antt` have the readers that the code follows; `proofs` shows that they read the grammars.
#![tactic(auto)]

mod begins;
mod block;
mod file;
mod laws;
mod level;
mod lines;
mod lists;
mod operators;
mod parse;
mod postfix;
mod primary;
mod rules;
mod statement;
mod steps;
mod word;

pub use begins::begins_postfix;
pub use laws::{
    one_bodies_answer, one_bodies_tree, one_main_answer, one_main_tree, some_bodies_answer,
    some_main_answer,
};
pub use level::{Line, Tall};
pub use lines::line_at;
pub use lists::with_item;
pub use operators::{
    ADD, AND, DIVIDE, EQUAL, GREATER, GREATER_EQUAL, JOIN, LENGTH, LESS, LESS_EQUAL, MINUS,
    MULTIPLY, NOT, NOT_EQUAL, OR, REMAINDER, SUBTRACT, TEXT,
};
pub use parse::{parse_bodies, parse_main};
use som_ast::ExprText;
pub use som_parse::SyntaxFault;
pub use steps::steps_from;
pub use word::{any_word, is_name, is_name_text, kind, name};
