//! Tests of `authenticated_history` with SHA-256, through its public calls.
#![tactic(auto)]

#[cfg(test)]
mod allocation_failures;
#[cfg(test)]
mod batches;
#[cfg(test)]
mod checked_calls;
#[cfg(test)]
mod known;
#[cfg(test)]
mod versions;
