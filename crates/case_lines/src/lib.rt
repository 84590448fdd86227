// Cases as lines of text, for programs that run calls on their edges: the parts of a line, the orders and
// profiles that they tell, and answers as text. Every text has an answer. Assumes nothing.
#![tactic(auto)]

mod given;
mod lines;
mod told;

pub use given::{make_order, make_profile};
pub use lines::{
    call_of, count_setting, is_case, part, place_setting, read_bytes, read_numbers, read_sizes,
    setting,
};
pub use told::{
    put, put_buffer, put_bytes, put_count, put_moved, put_name, put_opened, put_part, put_refusal,
    put_refused, put_refused_field, put_word,
};
