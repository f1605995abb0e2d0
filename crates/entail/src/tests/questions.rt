//! Answers that are known from the arithmetic of the words, and from nothing of this program.
use super::sheet::Sheet;
use crate::{Answer, Plain};
use sat_check::Cause;
use std::alloc::Global;
use std::test::Fail;

// The answer to the question of a text, by a search of so many conflicts.
fn answer(alloc: Global, text: &str, conflicts: u64) -> Result<Answer, Fail> {
    let mut sheet = Sheet::new(alloc)?;
    sheet.write_all(text)?;
    let mut plain = Plain::new(conflicts);
    sheet.ask(alloc, &mut plain)
}

// Laws of two's complement arithmetic modulo 2^32 (C0 Reference, "Operators"). A law over masks
// is one of products, which the search doesn't reach at the full width.
const LAWS: [&str; 33] = [
    "x 3 < , x 0 < ! |- x 4 <",
    // groups
    "x y + y x + ==",
    "x 0 + x ==",
    "x x - 0 ==",
    "x neg x ~ 1 + ==",
    "x y + y - x ==",
    // products
    "x 7 & y 7 & * y 7 & x 7 & * ==",
    "x 0 * 0 ==",
    "x 4294967295 * x neg ==",
    "x 3 & y 3 & z 3 & + * x 3 & y 3 & * x 3 & z 3 & * + ==",
    // quotients are rounded toward 0, and remainders have the sign of the dividend
    "7 neg 2 / 3 neg ==",
    "7 neg 2 % 1 neg ==",
    // shifts as products
    "x 1 << x 2 * ==",
    "1 neg 1 >> 1 neg ==",
    // bits
    "x y & y x & ==",
    "x y | y x | ==",
    "x y ^ y x ^ ==",
    "x x ^ 0 ==",
    "x ~ ~ x ==",
    "x y & ~ x ~ y ~ | ==",
    "x 1 & y 1 & + 3 <",
    "x 7 & y 7 & & x 7 & y 7 & | + x 7 & y 7 & + ==",
    // truths
    "p q && ! p ! q ! || <=>",
    "p q || , p ! |- q",
    // orders
    "x x < !",
    "x y < |- y x < !",
    "x y < , y z < |- x z <",
    "x y < y x < || x y == ||",
    "x 2147483647 < |- x x 1 + <",
    "x 0 == ! , x 0 < ! |- 0 x <",
    // congruence
    "x y == |- x 1 + y 1 + ==",
    "x y - 0 == |- x y ==",
    "p |- p x y ?: x ==",
];

#[test]
fn laws_follow(rt: HostRuntime) -> Result<(), Fail> {
    for law in LAWS {
        let answer = answer(rt.alloc(), law, 5_000)?;
        assert!(rt; matches!(answer, Answer::Yes), "{law}");
    }
    Ok(())
}

// Questions with one counterexample, as the words of x, y, z, p and q. A letter of which the
// question doesn't speak gets 0.
const COUNTEREXAMPLES: [(&str, [u32; 5]); 9] = [
    ("x 3 < , x 0 < ! |- x 2 <", [2, 0, 0, 0, 0]),
    ("x x 1 + <", [2_147_483_647, 0, 0, 0, 0]),
    // The least integer is its own negation.
    ("x 0 < x neg x ?: 0 < !", [2_147_483_648, 0, 0, 0, 0]),
    ("x 0 == ! |- x neg x == !", [2_147_483_648, 0, 0, 0, 0]),
    ("x 10 + 3 == |- false", [4_294_967_289, 0, 0, 0, 0]),
    (
        "x y + 10 == , x y - 4 == , x 0 < ! , x 100 < |- false",
        [7, 3, 0, 0, 0],
    ),
    ("z 3 * 21 == , z 0 < ! , z 100 < |- false", [0, 0, 7, 0, 0]),
    // A shift of a negative word keeps its sign.
    (
        "x 31 >> 1 neg == , x 1 << 0 == |- false",
        [2_147_483_648, 0, 0, 0, 0],
    ),
    ("p q || , p ! |- q !", [0, 0, 0, 0, 1]),
];

#[test]
fn claims_fail(rt: HostRuntime) -> Result<(), Fail> {
    for (text, expected) in COUNTEREXAMPLES {
        let Answer::No(valuation) = answer(rt.alloc(), text, 5_000)? else {
            return Err("no counterexample".into());
        };
        let words = valuation.words.into_vec();
        assert_eq!(rt; words.len(), expected.len());
        for (word, number) in words.iter().zip(expected) {
            assert_eq!(rt; word.0, number, "{text}");
        }
    }
    Ok(())
}

// One for each of the four cases, without a conflict to spend.
const READ_OFF: [&str; 5] = [
    "x y == |- true",
    "x y < , x 3 < |- x 3 <",
    "x y < , false |- x 3 <",
    "x 1 + x 1 + ==",
    "p q && p q && <=>",
];

#[test]
fn some_answers_are_read_off(rt: HostRuntime) -> Result<(), Fail> {
    for text in READ_OFF {
        let answer = answer(rt.alloc(), text, 0)?;
        assert!(rt; matches!(answer, Answer::Yes), "{text}");
    }
    Ok(())
}

#[test]
fn nothing_to_spend(rt: HostRuntime) -> Result<(), Fail> {
    let text = "x 3 < , x 0 < ! |- x 4 <";
    let Answer::Undecided(Cause::Spent(log)) = answer(rt.alloc(), text, 0)? else {
        return Err("not spent".into());
    };
    assert!(rt; log.entries.is_empty());
    Ok(())
}

// 167 products of 6,000 each, and an equality of 64.
#[test]
fn too_large(rt: HostRuntime) -> Result<(), Fail> {
    let mut sheet = Sheet::new(rt.alloc())?;
    sheet.write_all("x")?;
    sheet.write_repeatedly("x *", 167)?;
    sheet.write_all("0 ==")?;
    let mut plain = Plain::new(5_000);
    let Answer::Undecided(Cause::TooLarge(weight)) = sheet.ask(rt.alloc(), &mut plain)? else {
        return Err("not too large".into());
    };
    assert_eq!(rt; weight, 1_002_064);
    Ok(())
}
