//! Tests of stores, through the public calls of `log_store` alone.
#![tactic(auto)]

#[cfg(test)]
mod allocation_failures;
#[cfg(test)]
mod buffered;
#[cfg(test)]
mod checks;
#[cfg(test)]
mod compactions;
#[cfg(test)]
mod crashes;
#[cfg(test)]
mod failing_device;
#[cfg(test)]
mod failures;
#[cfg(test)]
mod files;
#[cfg(test)]
mod run;
