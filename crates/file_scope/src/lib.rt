//! Which names are visible at a place of a layer, what they stand for, and the first fault that is found as a file is
//! judged part by part.
#![tactic(auto)]

mod declared;
mod forms;
mod found;
mod head;
mod locals;
mod names;
mod scope;
mod sorts;
mod words;

pub use declared::{declared_name, has_item, is_same};
pub use forms::{
    declares_end, declares_header, declares_number, declares_numbers, declares_param,
    declares_queue, declares_queues,
};
pub use found::{Fault, Found};
pub use head::{head_locals, head_names};
pub use locals::{locals_as, number_locals, row_locals};
pub use names::{items, layer_words, listed, written};
pub use scope::{Local, Scope};
pub use words::Words;
