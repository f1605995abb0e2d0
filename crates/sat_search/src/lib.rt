//! The search for an assignment that satisfies clauses, or for a log that refutes them.
//!
//! It is a search by conflicts (Marques-Silva and Sakallah, "GRASP", 1999): decide, propagate
//! until nothing more follows, and at a conflict learn one clause and jump back. Propagation looks
//! only at the clauses that watch what became false, the variables of what was learned lately are
//! decided first, and from time to time all decisions are taken back (Moskewicz, Madigan, Zhao,
//! Zhang and Malik, "Chaff", 2001). What it learns is an entry of a log that `sat_check` follows,
//! so nobody has to trust the search. Entries of little use are set aside: propagation leaves them
//! out, and a new entry is compared with them, so that none is learned twice (`asides`).
//! `plain_search` is the same without all this.
#![tactic(auto)]

mod analysis;
mod asides;
mod gathering;
mod minimizing;
mod order;
mod restarts;
mod running;
mod searching;
mod solver;
mod stock;
mod uses;

pub use searching::search;
