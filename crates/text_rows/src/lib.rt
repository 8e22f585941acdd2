//! Tests of the way from a text to what it means: stores in memory, tokens, trees, loops, faults, kernels, and ticks by
//! rewriting.
#![tactic(auto)]

#[cfg(test)]
mod checked;
#[cfg(test)]
mod kernels;
#[cfg(test)]
mod lexed;
#[cfg(test)]
mod loops;
#[cfg(test)]
mod parsed;
#[cfg(test)]
mod stores;
#[cfg(test)]
mod ticks;
