//! The tests of the nucleus (`chorus_nucleus`), of receiving on any enabled port (`chorus_choose`), of the crew (`chorus_crew`) and of
//! sessions (`chorus_sessions`): calls and receives on one thread, callers on threads of their own, crews and sessions.
#![tactic(auto)]

#[cfg(test)]
mod choosing;
#[cfg(test)]
mod crews;
#[cfg(test)]
mod diary;
#[cfg(test)]
mod ground;
#[cfg(test)]
mod handlers;
#[cfg(test)]
mod looking;
#[cfg(test)]
mod moving;
#[cfg(test)]
mod one_thread;
#[cfg(test)]
mod played_calls;
#[cfg(test)]
mod serving;
#[cfg(test)]
mod sessions;
#[cfg(test)]
mod soaking;
