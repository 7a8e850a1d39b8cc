//! Tests of `chorus_replay`, `chorus_net` and `chorus_explore`: what scenarios print and what calls of the sites leave, what loads write, how
//! texts, sources and sinks end a run, what explorations tell (`exploring`: `races`, `counts`, and `schedules`, which are replayed), and
//! scripts that wait (`awaits`). The worked rows are in `tests_rows`.
#![tactic(auto)]

#[cfg(test)]
mod awaits;
#[cfg(test)]
mod checks;
#[cfg(test)]
mod counts;
#[cfg(test)]
mod endings;
#[cfg(test)]
mod exploring;
#[cfg(test)]
mod loads;
#[cfg(test)]
mod moments;
#[cfg(test)]
mod races;
#[cfg(test)]
mod replays;
#[cfg(test)]
mod running;
#[cfg(test)]
mod schedules;
#[cfg(test)]
mod site_calls;
#[cfg(test)]
mod worked_rows;
