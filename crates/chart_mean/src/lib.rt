//! What a picture of a run is: in `specs/` what it shows of each line of a report, where that stands, and the text of
//! the whole, as SVG. The code here is the types that the definitions share with the code that draws.
#![tactic(auto)]

mod examples;
mod laws;
mod types;

pub use crate::examples::{read_labels, read_lines};
pub use crate::laws::{
    arrows_lead_from_packets, each_line_has_its_mark, stubs_lead_to_those_never_reached,
    text_is_escaped,
};
pub use crate::types::{Breach, ChartEnding, SentPacket, Stay, Turn};
