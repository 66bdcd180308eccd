//! The steps that the commands share: bytes that are got under names, an image that is read and asked for its rules, an image that
//! is put, and lines that are printed; and what a call of a command comes to, whatever the command.
#![tactic(auto)]

mod client_image;
mod files;
mod image_lines;
mod laws;
mod library_image;
mod line;
mod output;
mod printing;
mod put;
mod stop;

pub use client_image::{look_at_program, read_program, sound_program};
pub use files::{fetch, fetch_all};
pub use image_lines::{refuse_breach, refuse_broken, refuse_bytes, refuse_incompatible};
pub use laws::fault_law;
pub use library_image::{look_at_rules, read_release, sound_release};
pub use line::{line_of, named_line};
pub use output::{End, Output};
pub use printing::{refuse, say, say_lines, tell};
pub use put::put_image;
pub use stop::{CommandStop, Refusal, Why};
