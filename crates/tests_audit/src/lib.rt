//! Tests of what reads a journal, by public items alone. Of `chorus_checker`: journals worked out by hand
//! (`journals`). Of `chorus_audit`: texts with the entries that they are the report of, or with the first line that
//! fails and its rule, and how sources and sinks end an audit (`audit_ends`). Of `chorus_judge`: what journals are
//! judged to be, and what is told of them (`judgements`), and which condition fails of each rule (`conditions`);
//! the same by promises (`promised`, `broken_promises`). Of `chorus_picture`: whole pictures, and how sources and
//! sinks end one (`pictures`). Of `chorus_show`: what is printed of the entries that the lines of a journal have,
//! and their summary (`summaries`). `ground` has the runs in memory.
#![tactic(auto)]

#[cfg(test)]
mod audit_ends;
#[cfg(test)]
mod broken_promises;
#[cfg(test)]
mod conditions;
#[cfg(test)]
mod drawings;
#[cfg(test)]
mod ground;
#[cfg(test)]
mod journals;
#[cfg(test)]
mod judgements;
#[cfg(test)]
mod parsed_lines;
#[cfg(test)]
mod pictures;
#[cfg(test)]
mod promised;
#[cfg(test)]
mod summaries;
#[cfg(test)]
mod verdicts;
