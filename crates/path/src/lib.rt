// One open path: the machine that writes its tags and words.
#![tactic(auto)]

mod entries;
pub mod open_path;
pub mod state;
pub mod worked;
