//! Heads of functions with their contracts, and the items of a program.
#![tactic(auto, using(c0_cursor::specs::Laws::fails_as))]

ghost use Rattle.std.specs.Prelude.{◌≡◌, ◌≤◌, ◌<◌, ◌||◌, ℕ, false, List, [], ◌∷◌, map, length, IfOk};
ghost use Rattle.c0_lex.specs.declared.token.Keyword.TheVariants.{Requires, Ensures};
ghost use Rattle.parsed_tree.specs.declared.expressions.Named.{Named};
ghost use Rattle.parsed_tree.specs.declared.items.Param.{Param};
ghost use Rattle.parsed_tree.specs.declared.items.Field.{Field};
ghost use Rattle.parsed_tree.specs.declared.items.Head.{Head};
ghost use Rattle.parsed_tree.specs.declared.items.ResultType.{ResultType};
ghost use Rattle.parsed_tree.specs.Tree.{ClauseTree, ContractTree, PredicateTree, ItemTree};
ghost use Rattle.parsed_tree.specs.Views.{clause_view, contract_view, predicate_view, item_view};
ghost use Rattle.c0_grammar.specs.Tokens.{word_mark, end_mark};
ghost use Rattle.c0_grammar.specs.Plan.{Plan, name, many, param_loop, contract_loop, clause_loop, predicate_loop, field_loop, items, param_plan, params_plan, clause_plan, contract_plan, predicate_plan, typed, typed_head, behind_head, head_plan, struct_plan, predicates_plan, typedef_plan, after_item};
ghost use Rattle.c0_cursor.specs.Seen.{reading, starts, Parsed};
ghost use Rattle.c0_parse.specs.Seen.{one_clause};
ghost use Rattle.c0_parse.specs.Read.{params_then, fields_then};
ghost use Rattle.c0_parse.specs.Heads.{item_behind};

use crate::part;
use crate::statements::lines_of;
use c0_cursor::{
    Mark, Mode, NOWHERE, Names, Stop, any_name, begins, behind_base, expect, free_name, remaining,
    type_name,
};
use c0_expressions::{deeper, expression, stated};
use c0_lex::{Keyword, Symbol, Token, TokenKind};
use gc0_base::{Limits, Place};
use parsed_tree::{
    Base, Clause, Contract, Field, Head, Item, Named, Param, PredicateText, ResultType, Side, Stmt,
};
use sqlite_items::Items;
use std::alloc::{AllocError, Global};

// A parameter.
fn param_of<'t, 'a>(
    alloc: Global,
    names: &Names<'a>,
    tokens: &'t [Token<'a>],
) -> Result<(Param, &'t [Token<'a>]), Stop>
    ensures reads { (next : Param → Plan) → Parsed (λ x. reading (next x.0) x.1.now) (reading (param_plan names.now next) tokens.now) result }
    ensures shorter { IfOk result (λ x. length x.1.now < length tokens.now) }
{
    let (typed, rest) = part!(type_name(alloc, names, tokens));
    let (name, rest) = part!(free_name(alloc, names, rest));
    Ok((Param { typed, name }, rest))
}

// The parameters behind a parenthesis, and the closing one.
fn params_of<'t, 'a>(
    alloc: Global,
    names: &Names<'a>,
    tokens: &'t [Token<'a>],
) -> Result<(Items<Param>, &'t [Token<'a>]), Stop>
    ensures reads { (next : List Param → Plan) → Parsed (λ x. reading (next x.0) x.1.now) (reading (params_plan names.now next) tokens.now) result }
    ensures shorter { IfOk result (λ x. length x.1.now < length tokens.now) }
{
    if begins(Mark::Sign(Symbol::CloseParen), tokens) {
        let (_, rest) = part!(expect(Mark::Sign(Symbol::CloseParen), tokens));
        return Ok((Items::new(alloc), rest));
    }
    let (first, rest) = part!(param_of(alloc, names, tokens));
    let found = one_param(alloc, first)?;
    params_behind(alloc, names, found, rest)
}

fn one_param(alloc: Global, param: Param) -> Result<Items<Param>, AllocError>
    ensures { IfOk result (λ x. x ≡ param ∷ []) }
{
    let mut found = Items::new(alloc);
    found.push(param)?;
    Ok(found)
}

// The parameters so far, with those that follow and the closing parenthesis.
fn params_behind<'t, 'a>(
    alloc: Global,
    names: &Names<'a>,
    so_far: Items<Param>,
    tokens: &'t [Token<'a>],
) -> Result<(Items<Param>, &'t [Token<'a>]), Stop>
    ensures reads { (next : List Param → Plan) → Parsed (λ x. reading (next x.0) x.1.now) (reading (many (param_loop names.now) (params_then so_far next)) tokens.now) result }
    ensures shorter { IfOk result (λ x. length x.1.now < length tokens.now) }
{
    let mut found = so_far;
    let mut rest = tokens;
    'params: while begins(Mark::Sign(Symbol::Comma), rest) {
        let (_, behind) = part!(expect(Mark::Sign(Symbol::Comma), rest));
        let (param, after) = part!(param_of(alloc, names, behind));
        found.push(param)?;
        rest = remaining(after);
    }
    let (_, rest) = part!(expect(Mark::Sign(Symbol::CloseParen), rest));
    Ok((found, rest))
}

// Whether a clause stands first.
fn begins_clause<'t, 'a>(tokens: &'t [Token<'a>]) -> bool
    ensures { result ≡ (starts (word_mark Requires) tokens.now || starts (word_mark Ensures) tokens.now) }
{
    begins(Mark::Word(Keyword::Requires), tokens) || begins(Mark::Word(Keyword::Ensures), tokens)
}

// A clause of a contract, from its word on.
fn clause_of<'t, 'a>(
    alloc: Global,
    names: &Names<'a>,
    tokens: &'t [Token<'a>],
) -> Result<(Clause, u32, &'t [Token<'a>]), Stop>
    ensures reads { (next : ClauseTree → ℕ → Plan) → Parsed (λ x. reading (next (clause_view x.0) x.1) x.2.now) (reading (one_clause names.now next) tokens.now) result }
    ensures room { IfOk result (λ x. x.1 ≤ Limits.NESTING) }
    ensures shorter { IfOk result (λ x. length x.2.now < length tokens.now) }
{
    if begins(Mark::Word(Keyword::Requires), tokens) {
        let (place, rest) = part!(expect(Mark::Word(Keyword::Requires), tokens));
        return stated_clause(alloc, names, Side::Requires, place, rest);
    }
    let (place, rest) = part!(expect(Mark::Word(Keyword::Ensures), tokens));
    stated_clause(alloc, names, Side::Ensures, place, rest)
}

// The formula of a clause, whose word stands at this place.
fn stated_clause<'t, 'a>(
    alloc: Global,
    names: &Names<'a>,
    side: Side,
    place: Place,
    tokens: &'t [Token<'a>],
) -> Result<(Clause, u32, &'t [Token<'a>]), Stop>
    ensures reads { (next : ClauseTree → ℕ → Plan) → Parsed (λ x. reading (next (clause_view x.0) x.1) x.2.now) (reading (clause_plan names.now next side place) tokens.now) result }
    ensures room { IfOk result (λ x. x.1 ≤ Limits.NESTING) }
    ensures shorter { IfOk result (λ x. length x.2.now < length tokens.now) }
{
    let (formula, depth, rest) = part!(stated(alloc, names, 0, tokens));
    Ok((
        Clause {
            place,
            side,
            formula,
        },
        depth,
        rest,
    ))
}

// The clauses behind what opened an annotation at this place, and what closes it.
fn contract_behind<'t, 'a>(
    alloc: Global,
    names: &Names<'a>,
    place: Place,
    tokens: &'t [Token<'a>],
) -> Result<(Contract, u32, &'t [Token<'a>]), Stop>
    ensures reads { (next : ContractTree → ℕ → Plan) → Parsed (λ x. reading (next (contract_view x.0) x.1) x.2.now) (reading (contract_plan names.now next place) tokens.now) result }
    ensures room { IfOk result (λ x. x.1 ≤ Limits.NESTING) }
    ensures shorter { IfOk result (λ x. length x.2.now < length tokens.now) }
{
    let mut clauses = Items::new(alloc);
    let mut deepest = 0;
    let mut rest = tokens;
    'clauses: while begins_clause(rest) {
        let (clause, depth, after) = part!(clause_of(alloc, names, rest));
        deepest = deeper(deepest, depth);
        clauses.push(clause)?;
        rest = remaining(after);
    }
    let (_, rest) = part!(expect(Mark::Close, rest));
    Ok((Contract { place, clauses }, deepest, rest))
}

// The contract behind the head of a function.
fn contracts_of<'t, 'a>(
    alloc: Global,
    names: &Names<'a>,
    tokens: &'t [Token<'a>],
) -> Result<(Items<Contract>, u32, &'t [Token<'a>]), Stop>
    ensures reads { (next : List ContractTree → ℕ → Plan) → Parsed (λ x. reading (next (map contract_view x.0) x.1) x.2.now) (reading (many (contract_loop names.now) next) tokens.now) result }
    ensures room { IfOk result (λ x. x.1 ≤ Limits.NESTING) }
    ensures shorter { IfOk result (λ x. length x.2.now ≤ length tokens.now) }
{
    let mut found = Items::new(alloc);
    let mut deepest = 0;
    let mut rest = tokens;
    'contracts: while begins(Mark::Open, rest) {
        let (place, behind) = part!(expect(Mark::Open, rest));
        let (contract, depth, after) = part!(contract_behind(alloc, names, place, behind));
        deepest = deeper(deepest, depth);
        found.push(contract)?;
        rest = remaining(after);
    }
    Ok((found, deepest, rest))
}

/// What stands behind the head of a function.
#[derive(Drop)]
pub enum Tail {
    Prototype(Items<Contract>),
    Function {
        contract: Items<Contract>,
        body: Items<Stmt>,
        /// The place of the closing brace.
        close: Place,
    },
}

// The name of a function, and its parameters.
fn named_params<'t, 'a>(
    alloc: Global,
    names: &Names<'a>,
    tokens: &'t [Token<'a>],
) -> Result<(Named, Items<Param>, &'t [Token<'a>]), Stop>
    ensures reads { (returned : ResultType) → (next : ItemTree → ℕ → Plan) → Parsed (λ x. reading (behind_head names.now next (record { result = returned; name = x.0; params = x.1 })) x.2.now) (reading (head_plan names.now next returned) tokens.now) result }
    ensures shorter { IfOk result (λ x. length x.2.now < length tokens.now) }
{
    let (name, rest) = part!(free_name(alloc, names, tokens));
    let (_, rest) = part!(expect(Mark::Sign(Symbol::OpenParen), rest));
    let (params, rest) = part!(params_of(alloc, names, rest));
    Ok((name, params, rest))
}

// What stands behind a head: the contract, and the body or a `;`.
fn tail_of<'t, 'a>(
    alloc: Global,
    names: &Names<'a>,
    tokens: &'t [Token<'a>],
) -> Result<(Tail, u32, &'t [Token<'a>]), Stop>
    ensures reads { (head : Head) → (next : ItemTree → ℕ → Plan) → Parsed (λ x. reading (next (item_behind head x.0) x.1) x.2.now) (reading (behind_head names.now next head) tokens.now) result }
    ensures room { IfOk result (λ x. x.1 ≤ Limits.NESTING) }
    ensures shorter { IfOk result (λ x. length x.2.now < length tokens.now) }
{
    let (contract, above, rest) = part!(contracts_of(alloc, names, tokens));
    if !begins(Mark::Sign(Symbol::OpenBrace), rest) {
        let (_, rest) = part!(expect(Mark::Sign(Symbol::Semicolon), rest));
        return Ok((Tail::Prototype(contract), above, rest));
    }
    let (_, rest) = part!(expect(Mark::Sign(Symbol::OpenBrace), rest));
    let (body, depth, close, rest) = part!(lines_of(alloc, names, 1, rest));
    Ok((
        Tail::Function {
            contract,
            body,
            close,
        },
        deeper(above, depth + 1),
        rest,
    ))
}

// The item of a head and of what stands behind it.
fn item_made(head: Head, tail: Tail) -> Item
    ensures { item_view result ≡ item_behind head tail }
{
    match tail {
        Tail::Prototype(contract) => Item::Prototype { head, contract },
        Tail::Function {
            contract,
            body,
            close,
        } => Item::Function {
            head,
            contract,
            body,
            close,
        },
    }
}

// A function behind its result: its name, parameters, contract, and its body or a `;`.
fn head_behind<'t, 'a>(
    alloc: Global,
    names: &Names<'a>,
    returned: ResultType,
    tokens: &'t [Token<'a>],
) -> Result<(Item, u32, &'t [Token<'a>]), Stop>
    ensures reads { (next : ItemTree → ℕ → Plan) → Parsed (λ x. reading (next (item_view x.0) x.1) x.2.now) (reading (head_plan names.now next returned) tokens.now) result }
    ensures room { IfOk result (λ x. x.1 ≤ Limits.NESTING) }
    ensures shorter { IfOk result (λ x. length x.2.now < length tokens.now) }
{
    let (name, params, rest) = part!(named_params(alloc, names, tokens));
    let (tail, depth, rest) = part!(tail_of(alloc, names, rest));
    let head = Head {
        result: returned,
        name,
        params,
    };
    Ok((item_made(head, tail), depth, rest))
}

// What stands behind the word `struct` at the front of an item, at this place.
fn struct_behind<'t, 'a>(
    alloc: Global,
    names: &Names<'a>,
    place: Place,
    tokens: &'t [Token<'a>],
) -> Result<(Item, u32, &'t [Token<'a>]), Stop>
    ensures reads { (next : ItemTree → ℕ → Plan) → Parsed (λ x. reading (next (item_view x.0) x.1) x.2.now) (reading (struct_plan names.now next place) tokens.now) result }
    ensures room { IfOk result (λ x. x.1 ≤ Limits.NESTING) }
    ensures shorter { IfOk result (λ x. length x.2.now < length tokens.now) }
{
    let (name, rest) = part!(any_name(alloc, tokens));
    if begins(Mark::Sign(Symbol::Semicolon), rest) {
        let (_, rest) = part!(expect(Mark::Sign(Symbol::Semicolon), rest));
        return Ok((Item::StructName { place, name }, 0, rest));
    }
    if begins(Mark::Sign(Symbol::OpenBrace), rest) {
        let (_, rest) = part!(expect(Mark::Sign(Symbol::OpenBrace), rest));
        let (fields, rest) = part!(fields_of(alloc, names, rest));
        return Ok((
            Item::Struct {
                place,
                name,
                fields,
            },
            0,
            rest,
        ));
    }
    let (typed, rest) = part!(behind_base(place, Base::Struct(name), rest));
    head_behind(alloc, names, ResultType::Typed(typed), rest)
}

// The fields of a struct, its closing brace and the `;` behind it.
fn fields_of<'t, 'a>(
    alloc: Global,
    names: &Names<'a>,
    tokens: &'t [Token<'a>],
) -> Result<(Items<Field>, &'t [Token<'a>]), Stop>
    ensures reads { (next : List Field → Plan) → Parsed (λ x. reading (next x.0) x.1.now) (reading (many (field_loop names.now) (fields_then [] next)) tokens.now) result }
    ensures shorter { IfOk result (λ x. length x.1.now < length tokens.now) }
{
    let mut found = Items::new(alloc);
    let mut rest = tokens;
    'fields: while !begins(Mark::Sign(Symbol::CloseBrace), rest) {
        let (typed, behind) = part!(type_name(alloc, names, rest));
        let (name, behind) = part!(any_name(alloc, behind));
        let (_, after) = part!(expect(Mark::Sign(Symbol::Semicolon), behind));
        found.push(Field { typed, name })?;
        rest = remaining(after);
    }
    let (_, rest) = part!(expect(Mark::Sign(Symbol::CloseBrace), rest));
    let (_, rest) = part!(expect(Mark::Sign(Symbol::Semicolon), rest));
    Ok((found, rest))
}

// A predicate behind its word at this place.
fn predicate_behind<'t, 'a>(
    alloc: Global,
    names: &Names<'a>,
    place: Place,
    tokens: &'t [Token<'a>],
) -> Result<(PredicateText, u32, &'t [Token<'a>]), Stop>
    ensures reads { (next : PredicateTree → ℕ → Plan) → Parsed (λ x. reading (next (predicate_view x.0) x.1) x.2.now) (reading (predicate_plan names.now next place) tokens.now) result }
    ensures room { IfOk result (λ x. x.1 ≤ Limits.NESTING) }
    ensures shorter { IfOk result (λ x. length x.2.now < length tokens.now) }
{
    let (name, rest) = part!(free_name(alloc, names, tokens));
    let (_, rest) = part!(expect(Mark::Sign(Symbol::OpenParen), rest));
    let (params, rest) = part!(params_of(alloc, names, rest));
    let (_, rest) = part!(expect(Mark::Sign(Symbol::Assign), rest));
    let (e, rest) = part!(expression(alloc, names, Mode::Conjunct, 0, rest));
    let (_, rest) = part!(expect(Mark::Sign(Symbol::Semicolon), rest));
    let depth = e.depth;
    Ok((
        PredicateText {
            place,
            name,
            params,
            body: e.expr.into_inner(),
        },
        depth,
        rest,
    ))
}

// The predicates behind what opened an annotation at this place, and what closes it.
fn predicates_behind<'t, 'a>(
    alloc: Global,
    names: &Names<'a>,
    place: Place,
    tokens: &'t [Token<'a>],
) -> Result<(Item, u32, &'t [Token<'a>]), Stop>
    ensures reads { (next : ItemTree → ℕ → Plan) → Parsed (λ x. reading (next (item_view x.0) x.1) x.2.now) (reading (predicates_plan names.now next place) tokens.now) result }
    ensures room { IfOk result (λ x. x.1 ≤ Limits.NESTING) }
    ensures shorter { IfOk result (λ x. length x.2.now < length tokens.now) }
{
    let mut predicates = Items::new(alloc);
    let mut deepest = 0;
    let mut rest = tokens;
    'predicates: while begins(Mark::Word(Keyword::Predicate), rest) {
        let (at, behind) = part!(expect(Mark::Word(Keyword::Predicate), rest));
        let (predicate, depth, after) = part!(predicate_behind(alloc, names, at, behind));
        deepest = deeper(deepest, depth);
        predicates.push(predicate)?;
        rest = remaining(after);
    }
    let (_, rest) = part!(expect(Mark::Close, rest));
    Ok((Item::Predicates { place, predicates }, deepest, rest))
}

// A name that is no typedef's, and its bytes in the text.
fn new_name<'t, 'a>(
    alloc: Global,
    names: &Names<'a>,
    tokens: &'t [Token<'a>],
) -> Result<(&'a [u8], Named, &'t [Token<'a>]), Stop>
    ensures reads { (next : Named → Plan) → Parsed (λ x. reading (next x.1) x.2.now) (reading (name names.now next) tokens.now) result }
    ensures same { IfOk result (λ x. x.0.now ≡ x.1.name) }
    ensures shorter { IfOk result (λ x. length x.2.now < length tokens.now) }
{
    let Some((token, rest)) = tokens.split_first() else {
        return Err(Stop::Syntax(NOWHERE));
    };
    let text = token.text;
    match token.kind {
        TokenKind::Name if !names.contains(text) => {
            let name = Items::from_slice(alloc, text)?;
            let place = token.place;
            Ok((text, Named { name, place }, rest))
        }
        _ => Err(Stop::Syntax(token.place)),
    }
}

// A typedef behind its word at this place; its name is one from here on.
fn typedef_behind<'t, 'a>(
    alloc: Global,
    names: &mut Names<'a>,
    place: Place,
    tokens: &'t [Token<'a>],
) -> Result<(Item, u32, &'t [Token<'a>]), Stop>
    ensures reads { (next : List ItemTree → ℕ → Plan) → Parsed (λ x. reading (after_item names.new next (item_view x.0) x.1) x.2.now) (reading (typedef_plan names.old next place) tokens.now) result }
    ensures room { IfOk result (λ x. x.1 ≤ Limits.NESTING) }
    ensures shorter { IfOk result (λ x. length x.2.now < length tokens.now) }
{
    let (typed, rest) = part!(type_name(alloc, names, tokens));
    let (text, name, rest) = part!(new_name(alloc, names, rest));
    let (_, rest) = part!(expect(Mark::Sign(Symbol::Semicolon), rest));
    names.add(text)?;
    Ok((Item::Typedef { place, typed, name }, 0, rest))
}

// A function whose result has a type.
fn typed_item<'t, 'a>(
    alloc: Global,
    names: &Names<'a>,
    tokens: &'t [Token<'a>],
) -> Result<(Item, u32, &'t [Token<'a>]), Stop>
    ensures reads { (next : ItemTree → ℕ → Plan) → Parsed (λ x. reading (next (item_view x.0) x.1) x.2.now) (reading (typed names.now (typed_head names.now next)) tokens.now) result }
    ensures room { IfOk result (λ x. x.1 ≤ Limits.NESTING) }
    ensures shorter { IfOk result (λ x. length x.2.now < length tokens.now) }
{
    let (typed, rest) = part!(type_name(alloc, names, tokens));
    head_behind(alloc, names, ResultType::Typed(typed), rest)
}

// An item; a typedef adds its name to those above.
fn item_of<'t, 'a>(
    alloc: Global,
    names: &mut Names<'a>,
    tokens: &'t [Token<'a>],
) -> Result<(Item, u32, &'t [Token<'a>]), Stop>
    requires { starts end_mark tokens.now ≡ false }
    ensures reads { (next : List ItemTree → ℕ → Plan) → Parsed (λ x. reading (after_item names.new next (item_view x.0) x.1) x.2.now) (reading (items names.old next) tokens.now) result }
    ensures room { IfOk result (λ x. x.1 ≤ Limits.NESTING) }
    ensures shorter { IfOk result (λ x. length x.2.now < length tokens.now) }
{
    let Some((token, rest)) = tokens.split_first() else {
        return Err(Stop::Syntax(NOWHERE));
    };
    let place = token.place;
    match token.kind {
        TokenKind::AnnotationBegin => predicates_behind(alloc, names, place, rest),
        TokenKind::Keyword(Keyword::Struct) => struct_behind(alloc, names, place, rest),
        TokenKind::Keyword(Keyword::Typedef) => typedef_behind(alloc, names, place, rest),
        TokenKind::Keyword(Keyword::Void) => head_behind(
            alloc,
            names,
            ResultType::Void(place),
            rest,
        ),
        _ => typed_item(alloc, names, tokens),
    }
}

/// All items of a program, and the end of the text.
pub fn items_of<'t, 'a>(
    alloc: Global,
    tokens: &'t [Token<'a>],
) -> Result<(Items<Item>, u32, &'t [Token<'a>]), Stop>
    ensures reads { (next : List ItemTree → ℕ → Plan) → Parsed (λ x. reading (next (map item_view x.0) x.1) x.2.now) (reading (items [] next) tokens.now) result }
{
    let mut names = Names::new(alloc);
    let mut found = Items::new(alloc);
    let mut deepest = 0;
    let mut rest = tokens;
    'items: while !begins(Mark::End, rest) {
        let (item, depth, after) = part!(item_of(alloc, &mut names, rest));
        deepest = deeper(deepest, depth);
        found.push(item)?;
        rest = remaining(after);
    }
    let (_, rest) = part!(expect(Mark::End, rest));
    Ok((found, deepest, rest))
}
