//! Tests of what no row of a table can say: that the events of threads come through a turn and wake whom they must, that a
//! folder of the system does what a disk's calls say, that a store over one is there again when it is mounted, and what
//! becomes of commits on a hub.
//!
//! They stand in a crate of their own, since a crate with tests is proved twice. All other tests are rows of tables.
#![tactic(auto)]

#[cfg(test)]
mod commits;
#[cfg(test)]
mod folder;
#[cfg(test)]
mod store;
#[cfg(test)]
mod turns;
