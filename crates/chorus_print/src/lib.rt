//! Printing scenarios: [`print`] writes one so that it is read again as the same.
//!
//! The layers above rest on the definition `printed` of `chorus_scene`, and on its law that what is printed is read again.
#![tactic(auto)]

mod printing;

pub use printing::print;
