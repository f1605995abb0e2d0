//! Tests of what is printed of programs and formulas.

use c0_print::{
    print_program, prints_tokens, reads_anywhere, reads_back, writes_again, writes_good,
    writes_no_deeper, writes_tree,
};
use formula_print::{Scope, print_conjunct, print_formula};
use gc0_base::{Place, Word};
use gc0_tree::{
    Conjunct, Expr, ExprForm, ExprOp, Formula, Function, Predicate, Program, Shape, Struct,
};
use parsed_tree::{
    Base, Expr as ReadExpr, Head, Item, Named, Operator, Parsed, ResultType, Simple, Spot, Stmt,
    Text, TypeName, UnaryOperator,
};
use sqlite_items::{Boxed, Items};
use std::alloc::{AllocError, Global};
use std::test::Fail;

fn place() -> Place {
    Place { line: 1, column: 1 }
}

fn spot() -> Spot {
    Spot {
        place: place(),
        first: place(),
    }
}

fn bytes(alloc: Global, text: &[u8]) -> Result<Items<u8>, AllocError> {
    Items::from_slice(alloc, text)
}

fn named(alloc: Global, name: &[u8]) -> Result<Named, AllocError> {
    Ok(Named {
        name: bytes(alloc, name)?,
        place: place(),
    })
}

// ---- trees that were read
fn local(alloc: Global, name: &[u8]) -> Result<Boxed<ReadExpr>, AllocError> {
    Boxed::new(alloc, ReadExpr::Local(spot(), bytes(alloc, name)?))
}

fn joined(
    alloc: Global,
    operator: Operator,
    left: Boxed<ReadExpr>,
    right: Boxed<ReadExpr>,
) -> Result<Boxed<ReadExpr>, AllocError> {
    Boxed::new(alloc, ReadExpr::Binary(spot(), operator, left, right))
}

fn negated(alloc: Global, operand: Boxed<ReadExpr>) -> Result<Boxed<ReadExpr>, AllocError> {
    Boxed::new(
        alloc,
        ReadExpr::Unary(spot(), UnaryOperator::Negate, operand),
    )
}

// `first - second`, with names
fn difference(alloc: Global, first: &[u8], second: &[u8]) -> Result<Boxed<ReadExpr>, AllocError> {
    joined(
        alloc,
        Operator::Sub,
        local(alloc, first)?,
        local(alloc, second)?,
    )
}

// The tree of `int main() { .. }`.
fn main_of(alloc: Global, statement: Stmt) -> Result<Parsed, AllocError> {
    let mut body = Items::new(alloc);
    body.push(statement)?;
    let head = Head {
        result: ResultType::Typed(TypeName {
            place: place(),
            base: Base::Int,
            stars: 0,
        }),
        name: named(alloc, b"main")?,
        params: Items::new(alloc),
    };
    let mut items = Items::new(alloc);
    items.push(Item::Function {
        head,
        contract: Items::new(alloc),
        body,
        close: place(),
    })?;
    Ok(Parsed {
        uses: Items::new(alloc),
        items,
    })
}

// How `int main()` with this expression as its one statement is printed.
fn printed(alloc: Global, e: Boxed<ReadExpr>) -> Result<Vec<u8>, AllocError> {
    let statement = Stmt::Simple(Simple::Plain(e.into_inner()));
    print_program(alloc, &main_of(alloc, statement)?)
}

#[test]
fn prints_programs(rt: HostRuntime) -> Result<(), Fail> {
    writes_tree();
    writes_good();
    writes_no_deeper();
    writes_again();
    prints_tokens();
    reads_back();
    reads_anywhere();
    let alloc = rt.alloc();
    let small = main_of(
        alloc,
        Stmt::Return {
            place: place(),
            value: Some(ReadExpr::Number(spot(), Word(42))),
        },
    )?;
    let text = print_program(alloc, &small)?;
    assert_eq!(rt;
        text.as_slice(),
        b"int main()\n{\nreturn 42;\n}\n".as_slice()
    );
    let failing = main_of(
        alloc,
        Stmt::Error {
            place: place(),
            text: Text {
                bytes: bytes(alloc, b"a\n\"\\'")?,
                place: place(),
            },
        },
    )?;
    let text = print_program(alloc, &failing)?;
    assert_eq!(rt;
        text.as_slice(),
        b"int main()\n{\nerror(\"a\\n\\\"\\\\'\");\n}\n".as_slice()
    );
    Ok(())
}

#[test]
fn prints_expressions(rt: HostRuntime) -> Result<(), Fail> {
    let alloc = rt.alloc();
    let to_the_left = joined(
        alloc,
        Operator::Sub,
        difference(alloc, b"a", b"b")?,
        local(alloc, b"c")?,
    )?;
    let to_the_right = joined(
        alloc,
        Operator::Sub,
        local(alloc, b"a")?,
        difference(alloc, b"b", b"c")?,
    )?;
    let looser = joined(
        alloc,
        Operator::Mul,
        difference(alloc, b"a", b"b")?,
        local(alloc, b"c")?,
    )?;
    let twice = negated(alloc, negated(alloc, local(alloc, b"a")?)?)?;
    let rows = [
        (
            printed(alloc, to_the_left)?,
            b"int main()\n{\na - b - c;\n}\n".as_slice(),
        ),
        (
            printed(alloc, to_the_right)?,
            b"int main()\n{\na - (b - c);\n}\n".as_slice(),
        ),
        (
            printed(alloc, looser)?,
            b"int main()\n{\n(a - b) * c;\n}\n".as_slice(),
        ),
        (
            printed(alloc, twice)?,
            b"int main()\n{\n- -a;\n}\n".as_slice(),
        ),
    ];
    for (text, wanted) in &rows {
        assert_eq!(rt; text.as_slice(), *wanted);
    }
    Ok(())
}

// ---- formulas over numbers
fn numbered(form: ExprForm) -> Expr {
    Expr {
        place: place(),
        form,
    }
}

// an instance of the predicate of number 0
fn list_of(alloc: Global, argument: Expr) -> Result<Conjunct, AllocError> {
    let mut arguments = Items::new(alloc);
    arguments.push(argument)?;
    Ok(Conjunct::Instance(place(), 0, arguments))
}

fn parameter(alloc: Global) -> Result<Boxed<Expr>, AllocError> {
    Boxed::new(alloc, numbered(ExprForm::Local(0)))
}

// `l == NULL ? true : acc(l->val) && acc(l->next) && list(l->next)`
fn list_body(alloc: Global) -> Result<Items<Conjunct>, AllocError> {
    let test = numbered(ExprForm::Binary(
        ExprOp::Equal,
        parameter(alloc)?,
        Boxed::new(alloc, numbered(ExprForm::Null))?,
    ));
    let mut these = Items::new(alloc);
    these.push(Conjunct::Value(numbered(ExprForm::Truth(true))))?;
    let mut those = Items::new(alloc);
    those.push(Conjunct::Acc(numbered(ExprForm::Local(0)), 0))?;
    those.push(Conjunct::Acc(numbered(ExprForm::Local(0)), 1))?;
    let next = numbered(ExprForm::Read {
        base: parameter(alloc)?,
        of_struct: 0,
        field: 1,
    });
    those.push(list_of(alloc, next)?)?;
    let mut body = Items::new(alloc);
    body.push(Conjunct::Choice(place(), test, these, those))?;
    Ok(body)
}

fn shaped(
    alloc: Global,
    name: &[u8],
    shape: Shape,
    then_name: &[u8],
    then_shape: Shape,
) -> Result<Items<(Items<u8>, Shape)>, AllocError> {
    let mut names = Items::new(alloc);
    names.push((bytes(alloc, name)?, shape))?;
    names.push((bytes(alloc, then_name)?, then_shape))?;
    Ok(names)
}

// `push` requires `list(l)` with a `?` before it, and ensures `list(\result)`.
fn push_function(alloc: Global) -> Result<Function, AllocError> {
    let mut before = Items::new(alloc);
    before.push(list_of(alloc, numbered(ExprForm::Local(0)))?)?;
    let mut after = Items::new(alloc);
    after.push(list_of(alloc, numbered(ExprForm::ResultValue))?)?;
    Ok(Function {
        name: bytes(alloc, b"push")?,
        place: place(),
        close: place(),
        params: 2,
        locals: shaped(alloc, b"l", Shape::Pointer(0), b"v", Shape::Int)?,
        result: Some(Shape::Pointer(0)),
        before: Formula {
            imprecise: true,
            parts: before,
        },
        after: Formula {
            imprecise: false,
            parts: after,
        },
        body: Items::new(alloc),
    })
}

// The list of a stack: its struct `node`, its predicate `list` and its function `push`.
fn list_program(alloc: Global) -> Result<Program, AllocError> {
    let mut structs = Items::new(alloc);
    structs.push(Struct {
        name: bytes(alloc, b"node")?,
        fields: shaped(alloc, b"val", Shape::Int, b"next", Shape::Pointer(0))?,
    })?;
    let mut params = Items::new(alloc);
    params.push((bytes(alloc, b"l")?, Shape::Pointer(0)))?;
    let mut predicates = Items::new(alloc);
    predicates.push(Predicate {
        name: bytes(alloc, b"list")?,
        params,
        body: list_body(alloc)?,
    })?;
    let mut functions = Items::new(alloc);
    functions.push(push_function(alloc)?)?;
    Ok(Program {
        structs,
        predicates,
        functions,
        main: 0,
        texts: Items::new(alloc),
    })
}

#[test]
fn prints_formulas(rt: HostRuntime) -> Result<(), Fail> {
    let program = list_program(rt.alloc())?;
    let push = program.functions.get(0).ok_or("no function")?;
    let scope = Scope::Function(0);
    let after = print_formula(rt.alloc(), &program, scope, &push.after)?;
    assert_eq!(rt; after.as_slice(), b"list(\\result)".as_slice());
    let before = print_formula(rt.alloc(), &program, scope, &push.before)?;
    assert_eq!(rt; before.as_slice(), b"? && list(l)".as_slice());
    let list = program.predicates.get(0).ok_or("no predicate")?;
    let choice = list.body.get(0).ok_or("no conjunct")?;
    let text = print_conjunct(rt.alloc(), &program, Scope::Predicate(0), choice)?;
    assert_eq!(rt;
        text.as_slice(),
        b"(l == NULL ? true : acc(l->val) && acc(l->next) && list(l->next))".as_slice()
    );
    Ok(())
}
