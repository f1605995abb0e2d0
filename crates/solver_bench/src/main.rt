//! Measures how terms are made and put into clauses: `solver_bench FAMILY SIZE [ROUNDS]`.
//!
//! It prints the number of terms, their weight, and the numbers of variables and of clauses of the
//! query that the family has in that size. Where rounds are asked for, the best processor time
//! of so many follows, in nanoseconds: that of making the terms, and that of making the clauses.
#![tactic(auto)]

mod counts;
mod family;
mod query;
mod rounds;

use anyhow::{Context, Result, bail};
use counts::counts_of;
use family::family_of;
use rounds::best_of;
use std::env;

fn main(rt: HostRuntime) -> Result<()> {
    let mut words = Vec::new(rt.alloc());
    for word in env::args(&rt)?.skip(1) {
        words.push(word)?;
    }
    let (name, size, rounds) = match words.as_slice() {
        [name, size] => (name, size, 0),
        [name, size, rounds] => (
            name,
            size,
            rounds.parse::<u32>().context("no number of rounds")?,
        ),
        _ => bail!("usage: solver_bench FAMILY SIZE [ROUNDS]"),
    };
    let family = family_of(name.as_str()).context("no such family")?;
    let size = size.parse::<u32>().context("no size")?;
    let line = counts_of(rt.alloc(), family, size)?;
    print!(rt; "{line}")?;
    if rounds > 0 {
        let best = best_of(&rt, family, size, rounds)?;
        print!(rt; " {} {}", best.terms, best.clauses)?;
    }
    println!(rt;)?;
    Ok(())
}
