//! What is kept to be checked, and which records of it are right.
#![tactic(auto)]
