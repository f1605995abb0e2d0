//! The rounds of a measurement.

ghost use Rattle.solver_bench.specs.Families.{IsSorted};

use crate::counts::Trouble;
use crate::family::Family;
use crate::query::roots_of;
use anyhow::Result;
use std::time::{CpuClock, Duration};
use word_blast::blast;
use word_terms::Terms;

/// Processor times in nanoseconds.
#[derive(Clone, Copy, Debug)]
pub struct Times {
    /// The time of making the terms.
    pub terms: u64,
    /// The time of making the clauses of the terms.
    pub clauses: u64,
}

/// The least times of some rounds.
pub fn best_of<R: CpuClock + AllocGlobal>(
    rt: &R,
    family: Family,
    size: u32,
    rounds: u32,
) -> Result<Times>
    requires { IsSorted family }
{
    let mut best = Times {
        terms: u64::MAX,
        clauses: u64::MAX,
    };
    for _ in 0..rounds {
        let times = round(rt, family, size)?;
        best.terms = best.terms.min(times.terms);
        best.clauses = best.clauses.min(times.clauses);
    }
    Ok(best)
}

fn round<R: CpuClock + AllocGlobal>(rt: &R, family: Family, size: u32) -> Result<Times>
    requires { IsSorted family }
{
    let start = rt.thread_cpu_time()?;
    let mut terms = Terms::new(rt.alloc());
    let roots = roots_of(&mut terms, family, size)?;
    let made = rt.thread_cpu_time()?;
    let query = blast(rt.alloc(), &terms, &roots, &[]).map_err(Trouble::from)?;
    let done = rt.thread_cpu_time()?;
    drop(query);
    Ok(Times {
        terms: nanoseconds(made.saturating_sub(start)),
        clauses: nanoseconds(done.saturating_sub(made)),
    })
}

fn nanoseconds(time: Duration) -> u64 {
    time.as_secs()
        .saturating_mul(1_000_000_000)
        .saturating_add(u64::from(time.subsec_nanos()))
}
