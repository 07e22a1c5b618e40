// The text of an answer: a division's listing or a refusal, made into a lent byte slice; and the way from a link file's bytes to that text.
#![tactic(auto)]

mod lines;
mod site_file;
mod text;

pub use lines::{write_refusal, write_site};
pub use site_file::share;
