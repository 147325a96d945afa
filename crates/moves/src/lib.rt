// What is done with a plan that was judged: slide and tidy.
#![tactic(auto)]

pub mod sliding; // slide
pub mod tidying; // tidy
