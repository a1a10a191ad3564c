#![tactic(auto)]
// From the bytes of splitrun's input to the bytes of its output (document 01, "The program splitrun and its lines").
mod input;
mod run;
mod text;

pub use run::split_run;
