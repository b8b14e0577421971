// What the search does with the words of its turns. A turn's words are the first 128 of the room that it is lent: domains 0..32, reasons
// 32..96, leaf 96..128; the turn below has the words from 128 on. It rests on `solver_arrays`. Every public function is for
// `search_steps`, `search_turns` and `search_run`.
#![tactic(auto)]

mod room;
mod sets;

pub use room::{clear_below, hand_down, take_leaf, zero_words};
pub use sets::{handed, near_reasons, start_set};
