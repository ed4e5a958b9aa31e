//! The types of a layer file whose names are resolved: their first fault, or the layers that the file means.
#![tactic(auto)]

mod answer;
mod block;
mod checked;
mod count;
mod declaration;
mod emission;
mod error;
mod file;
mod handler;
mod header;
mod kinds;
mod layer;
mod library;
mod rows;
mod statement;

pub use answer::judge;
pub use checked::check;
pub use error::TypeError;
