//! Tests of what no file of calls says: of a database, its status and the board of a handle on several threads, of the handles of
//! writes, of clocks, and of the states that a reader publishes.
#![tactic(auto)]

#[cfg(test)]
mod boards;
#[cfg(test)]
mod clocks;
#[cfg(test)]
mod handles;
#[cfg(test)]
mod published;
#[cfg(test)]
mod shares;
#[cfg(test)]
mod steps;
#[cfg(test)]
mod tellings;
#[cfg(test)]
mod threads;
