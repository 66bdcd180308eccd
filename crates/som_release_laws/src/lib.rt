//! What newer releases keep of clients.
#![tactic(auto)]

mod laws;

pub use laws::{
    accepted_law, binding_law, compatible_along_law, compatible_client_law, exchange_law,
    growing_law, loading_along_law, loading_law, one_owner_law, owners_along_law, owners_law,
    released_law, tower_law,
};
