//! What is known of classes, the kinds of expressions among them, and the type of each form by the types of its parts.
#![tactic(auto)]

mod calls;
mod code_place;
mod forms;
mod kind;
mod knowledge;

pub use calls::{
    all_fit, cast_kind, class_kind, isa_kind, named_call_kind, new_kind, offset_call_kind,
    parent_call_kind, parents_call_kind, proxy_kind, self_kind, variable_kind,
};
pub use code_place::{CodePlace, TypeFault};
pub use forms::{
    are_alike, binary_kind, has_text, host_kind, is_boolean, is_call, is_long, is_nothing,
    is_object, is_reference, is_string, local_kind, unary_kind, value,
};
pub use kind::Kind;
pub use knowledge::{
    Knowledge, decl_at, entries_of, kind_fits, kind_of, kinds_of, know, known_kind, owner,
    place_of, signature_of, type_fits,
};
