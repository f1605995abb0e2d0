//! Sums and products of ways, counted no further than one past what a plain function may have.

ghost use Rattle.std.specs.Prelude.{◌≡◌, ◌+◌, ◌*◌, ℕ};
ghost use Rattle.self_framing.specs.Capped.{capped, ways_capped};
ghost use Rattle.self_framing.specs.Paths as paths;

use gc0_base::Limits;

/// The ways through statements.
#[derive(Clone, Copy)]
pub struct Ways {
    /// Those that go on behind them.
    pub on: u64,
    /// Those that end the function.
    pub ended: u64,
}

/// One way or the other.
pub fn sum(a: u64, b: u64) -> u64
    ensures { (x y : ℕ) → a ≡ capped x → b ≡ capped y → result ≡ capped (x + y) }
{
    a.saturating_add(b).min(Limits::PATHS + 1)
}

/// One way and then the other.
pub fn product(a: u64, b: u64) -> u64
    ensures { (x y : ℕ) → a ≡ capped x → b ≡ capped y → result ≡ capped (x * y) }
{
    a.saturating_mul(b).min(Limits::PATHS + 1)
}

/// Ways that all go on.
pub fn straight(on: u64) -> Ways
    ensures { (x : ℕ) → on ≡ capped x → result ≡ ways_capped (paths.straight x) }
{
    Ways { on, ended: 0 }
}

/// One statement after another.
pub fn followed(a: Ways, b: Ways) -> Ways
    ensures { (x y : paths.Ways) → a ≡ ways_capped x → b ≡ ways_capped y → result ≡ ways_capped (paths.followed x y) }
{
    Ways {
        on: product(a.on, b.on),
        ended: sum(a.ended, product(a.on, b.ended)),
    }
}

/// A test with two branches.
pub fn branched(test: u64, a: Ways, b: Ways) -> Ways
    ensures { (w : ℕ) (x y : paths.Ways) → test ≡ capped w → a ≡ ways_capped x → b ≡ ways_capped y → result ≡ ways_capped (paths.branched w x y) }
{
    Ways {
        on: product(test, sum(a.on, b.on)),
        ended: product(test, sum(a.ended, b.ended)),
    }
}

/// A loop with its invariant, its test and its body.
pub fn looped(invariant: u64, test: u64, body: Ways) -> Ways
    ensures { (i w : ℕ) (x : paths.Ways) → invariant ≡ capped i → test ≡ capped w → body ≡ ways_capped x → result ≡ ways_capped (paths.looped i w x) }
{
    let entries = product(product(invariant, invariant), test);
    Ways {
        on: entries,
        ended: product(entries, sum(product(body.on, invariant), body.ended)),
    }
}
