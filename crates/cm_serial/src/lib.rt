//! The serial run: the image of a program on one hart, over one list of words, from its start to the service that ends it.
//!
//! What the code does is known by the laws of the code generator alone: a run ends as the serial elision of its program.
#![tactic(auto)]

mod law;
mod run;
mod service;
mod stack;

pub use law::{images_run_as_elisions, runs_end_once};
pub use run::{Served, serial};
