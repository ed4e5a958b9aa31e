//! The first fault of a file's names; or the file, with tables of the words that its layers declare.
#![tactic(auto)]

mod answer;
mod block;
mod declaration;
mod error;
mod events;
mod file;
mod found;
mod gather;
mod handler;
mod head;
mod judged;
mod layer;
mod library;
mod limits;
mod names;
mod place;
mod places;
mod resolved;
mod scope;
mod sizes;
mod tables;
mod uses;
mod value;
mod worded;

pub use answer::resolve;
pub use error::NameError;
pub use resolved::Resolved;
