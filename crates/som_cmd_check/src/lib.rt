//! The commands that look at images: `check` and `show`.
#![tactic(auto)]

mod check;
mod show;

pub use check::check_images;
pub use show::show_image;
