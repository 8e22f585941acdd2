//! How the top call ends over streams and stores in memory: where they fail, give single bytes, or wait.
#![tactic(auto)]

#[cfg(test)]
mod beside;
#[cfg(test)]
mod farms;
#[cfg(test)]
mod gate;
#[cfg(test)]
mod memory;
#[cfg(test)]
mod programs;
#[cfg(test)]
mod rows;
#[cfg(test)]
mod streams;
#[cfg(test)]
mod waits;
