//! A large run from a number: [`soak`] returns the script of a seed and a count of commands.
//!
//! Two hosts write and read sectors of one device over four paths each. Of each ten commands one
//! loses its answer and one request comes twice, and half way both hosts flush and the shelf loses
//! power. The same two numbers have the same script each time.
//!
//! It runs nothing and prints nothing: `aoe_world` runs a script, and `print_script` of
//! `aoe_script` returns its text.
//!
//! Promised: the script is the stated one, `soaked`, line by line, and has so many events (clause
//! `events` of [`soak`]). As it is a `Script`, nothing is wrong with any of its lines.
//!
//! Only tested: nothing. Worked scripts (soak.rt of `aoe_sim_tests`) and the summaries of ten seeds
//! beside another maker of the script (`tests/soak`, `tests/soak-script`) try what `soaked` says.
#![tactic(auto)]

mod add;
mod command;
mod setup;
mod whole;

pub use whole::soak;
