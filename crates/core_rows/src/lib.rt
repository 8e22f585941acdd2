//! Tests of the layers below a whole run: lists of places, mailboxes, bells, copies that are combined, one thread's
//! machine, the host of a program's threads, and logs of exchanges.
#![tactic(auto)]

#[cfg(test)]
mod beside;
#[cfg(test)]
mod combined;
#[cfg(test)]
mod compiled;
#[cfg(test)]
mod exchanged;
#[cfg(test)]
mod hinted;
#[cfg(test)]
mod hosted;
#[cfg(test)]
mod jobs;
#[cfg(test)]
mod listed;
#[cfg(test)]
mod logs;
#[cfg(test)]
mod mailbox;
#[cfg(test)]
mod placed;
#[cfg(test)]
mod ports;
#[cfg(test)]
mod replayed;
#[cfg(test)]
mod roped;
#[cfg(test)]
mod summed;
#[cfg(test)]
mod together;
