//! Tests of logs, histories and deltas, through the public calls of `commit_log` and of sessions with a log.
#![tactic(auto)]

#[cfg(test)]
mod allocation_failures;
#[cfg(test)]
mod checked_calls;
#[cfg(test)]
mod checks;
#[cfg(test)]
mod logged_sessions;
#[cfg(test)]
mod states;
#[cfg(test)]
mod worked;
#[cfg(test)]
mod worked_bytes;
