//! Worked rows of runs over many traces.
#![tactic(auto)]

#[cfg(test)]
mod compiled;
#[cfg(test)]
mod reports;
