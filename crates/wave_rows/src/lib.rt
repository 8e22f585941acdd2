//! Worked dumps, written, read and told, and bytes that are no dump's.
#![tactic(auto)]

#[cfg(test)]
mod dumps;
#[cfg(test)]
mod refused;
#[cfg(test)]
mod told;
#[cfg(test)]
mod worked;
