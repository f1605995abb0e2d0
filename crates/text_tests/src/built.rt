//! Tests of `built_text`: which texts can be run so far, and where it is seen that they can't.

ghost use Rattle.std.specs.Prelude.{◌<◌, length};

use built_text::{
    ClauseKind, ReadFault, Stmt, built_forms, cut_ends_last, each_tokens, one_fault, one_tree, read,
};
use c0_lex::tokens;
use std::alloc::Global;
use std::test::Fail;

const HALF: &[u8] = b"int half(int x)
//@requires 0 <= x;
/*@ ensures \\result <= x; @*/
{
  int h = 0;
  while (h + h < x)
  //@loop_invariant h <= x;
  { h = h + 1; }
  return h;
}
int main() {
  int a = half(7);
  int b = half(-1);
  return a;
}
";

// Where a text goes wrong first, as line and column.
fn fault(alloc: Global, text: &[u8]) -> Option<(u32, u32)>
    requires { length text.now < 1000 }
{
    let Ok(lexed) = tokens(alloc, text) else {
        return None;
    };
    match read(alloc, &lexed) {
        Err(ReadFault::NotBuilt(place)) => Some((place.line, place.column)),
        _ => None,
    }
}

#[test]
fn reads_functions(rt: HostRuntime) -> Result<(), Fail> {
    one_tree();
    one_fault();
    cut_ends_last();
    built_forms();
    each_tokens();
    let lexed = tokens(rt.alloc(), HALF)?;
    let program = read(rt.alloc(), &lexed)?;
    assert_eq!(rt; program.functions.len(), 2);
    let half = program.functions.get(0).ok_or("no function")?;
    assert_eq!(rt; half.name.place.column, 5);
    assert_eq!(rt; half.close.line, 10);
    assert_eq!(rt; half.body.len(), 3);
    let clause = half.contract.get(1).ok_or("no clause")?;
    assert_eq!(rt; clause.kind, ClauseKind::Ensures);
    assert_eq!(rt; clause.note.place.line, 3);
    assert_eq!(rt; clause.note.place.column, 5);
    assert!(rt; matches!(half.body.get(1), Some(Stmt::While { .. })));
    Ok(())
}

#[test]
fn names_the_first_fault(rt: HostRuntime) {
    let alloc = rt.alloc();
    assert_eq!(rt;
        fault(alloc, b"int main() { return 7 / 2; }"),
        Some((1, 23))
    );
    assert_eq!(rt; fault(alloc, b"int main() { }"), Some((1, 14)));
    assert_eq!(rt;
        fault(alloc, b"int f() { x = readint(); return x; }"),
        Some((1, 15))
    );
    assert_eq!(rt;
        fault(
            alloc,
            b"int f(int x)\n//@requires \\result == x;\n{ return x; }"
        ),
        Some((2, 13))
    );
    assert_eq!(rt;
        fault(alloc, b"int f() { if (true) return 1; }"),
        Some((1, 21))
    );
    assert_eq!(rt;
        fault(alloc, b"int f() { x = g(1) + 1; return x; }"),
        Some((1, 20))
    );
    assert_eq!(rt; fault(alloc, b"int f() { return 1; }\nint"), Some((2, 4)));
}
