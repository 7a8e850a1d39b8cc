//! Tests of the crates `chorus_words` and `chorus_program`, over their public items: the words, what they print, how writes that fail end
//! them, and scenarios whose scripts run on threads. What replays, loads and explorations do beside that is in `tests_run`.
#![tactic(auto)]

#[cfg(test)]
mod audits;
#[cfg(test)]
mod claims;
#[cfg(test)]
mod crews;
#[cfg(test)]
mod drawn_scenarios;
#[cfg(test)]
mod explorations;
#[cfg(test)]
mod faults;
#[cfg(test)]
mod gates;
#[cfg(test)]
mod ground;
#[cfg(test)]
mod handed_in;
#[cfg(test)]
mod journals;
#[cfg(test)]
mod mover_scripts;
#[cfg(test)]
mod replays;
#[cfg(test)]
mod words;
