//! The plain editor: which inputs are accepted, and what is answered to them. It is the meaning of the whole program, as
//! definitions (`specs/`), and the functions here carry the laws that make it a meaning.
#![tactic(auto)]

mod laws;

pub use laws::{
    a_caret_stands_where_it_is_seen, a_refusal_changes_nothing, a_show_is_fresh,
    a_stop_shows_what_stands_there, at_takes_the_first_place_there, each_step_is_sound,
    names_do_not_show, one_reading, runs_say_the_text, typing_changes_one_place,
    view_is_the_written_text, what_is_printed_stays_readable, what_is_seen_stands_there,
    worked_examples,
};
