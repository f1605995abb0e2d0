//! The core of a program: statements over simple values, with each temporary, step, site and
//! decision written out.
//!
//! `Items<T>` stands for `Vec<T>`: contracts see it as a list, so that cores can be compared.
//! Nothing here takes memory.
#![tactic(auto)]

mod decisions;
mod sites;

pub use decisions::choice_at;
use gc0_base::{Decision, Place, Site, Word};
use gc0_tree::{Formula, LibraryCall, Note, Predicate, Shape, Struct, UnaryOp};
pub use sites::{place_at, site_at};
use sqlite_items::Items;

/// An operator between its two operands. `a > b` is `b < a`, and `a != b` is `!(a == b)`.
#[derive(Clone, Copy, Debug, PartialEq, Eq)]
pub enum BinaryOp {
    /// `+`
    Add,
    /// `-`
    Sub,
    /// `*`
    Mul,
    /// `/`
    Div,
    /// `%`
    Rem,
    /// `<<`
    Shl,
    /// `>>`
    Shr,
    /// `&`
    And,
    /// `|`
    Or,
    /// `^`
    Xor,
    /// `<`
    Less,
    /// `<=`
    LessEq,
    /// `==`
    Equal,
}

/// What a statement works on.
#[derive(Clone, Copy, Debug, PartialEq, Eq)]
pub enum Simple {
    /// A word: a number, a truth or `NULL`.
    Const(Word),
    /// The word of a local by its number. A number from the count of the locals on is that of a
    /// temporary.
    Local(u32),
}

/// Whether a formula is assumed or shown at a site.
#[derive(Clone, Copy, Debug, PartialEq, Eq)]
pub enum Phase {
    /// What it permits comes in: at the start of a function, after a call, at a loop's head, at
    /// an unfold.
    Produce,
    /// What it permits is given up: where it is decided.
    Consume,
}

/// What a decision decides.
#[derive(Clone, Copy, Debug, PartialEq, Eq)]
pub enum Origin {
    /// A branch or a loop of the code.
    Branch,
    /// A choice of a formula at one site.
    Choice {
        /// The site. A production has that of its call, its unfold or its loop's first head, and
        /// at a function's start the start with the number 0.
        site: Site,
        /// Whether the formula is produced or consumed there.
        phase: Phase,
        /// The number of the choice in reading order. At a fold and an unfold the choices are
        /// those of the predicate's body.
        choice: u32,
    },
}

/// A decision of a function; its number is its index.
#[derive(Clone, Copy, Debug, PartialEq, Eq)]
pub struct DecisionAt {
    /// The place of its `if`, `while`, `for`, `&&`, `||` or `?`.
    pub place: Place,
    /// What it decides.
    pub origin: Origin,
}

/// What is kept of a site.
#[derive(Clone, Copy, Debug, PartialEq, Eq)]
pub struct SiteAt {
    /// Where its token stands.
    pub place: Place,
    /// The number of the callee at a call, of the predicate at a fold or an unfold, and of the
    /// text at an `error`.
    pub about: Option<u32>,
    /// The number of the first decision of the choices that are consumed there.
    pub consumed: u32,
    /// The number of the first decision of the choices that are produced there.
    pub produced: u32,
}

/// The sites of a function, each kind by its ordinals.
#[derive(Drop)]
pub struct SiteTable {
    /// The start of the function. It is a site in `main` alone; elsewhere `requires` is produced
    /// there, and nothing is decided.
    pub start: SiteAt,
    /// The callees' `requires` at calls.
    pub calls: Items<SiteAt>,
    /// The function's `ensures` at its ends.
    pub returns: Items<SiteAt>,
    /// The invariants at first heads.
    pub entry: Items<SiteAt>,
    /// The invariants at later heads.
    pub again: Items<SiteAt>,
    /// The `assert` annotations.
    pub asserts: Items<SiteAt>,
    /// The `fold` annotations.
    pub folds: Items<SiteAt>,
    /// The `unfold` annotations.
    pub unfolds: Items<SiteAt>,
    /// The accesses of fields.
    pub accesses: Items<SiteAt>,
    /// What C0 itself may fault at.
    pub traps: Items<SiteAt>,
}

/// A statement of the core.
#[derive(Drop)]
pub enum CoreStmt {
    /// A step is due.
    Step,
    /// `to = from`.
    Set {
        /// The local that is set.
        to: u32,
        /// Its new word.
        from: Simple,
    },
    /// `to = op a`.
    Unary {
        /// The local that is set.
        to: u32,
        /// The operator.
        op: UnaryOp,
        /// The operand.
        a: Simple,
    },
    /// `to = a op b`.
    Binary {
        /// The local that is set.
        to: u32,
        /// The operator.
        op: BinaryOp,
        /// The left operand.
        a: Simple,
        /// The right operand.
        b: Simple,
        /// Where it faults, if the operator may fault.
        site: Option<Site>,
    },
    /// `to = base->field`.
    Load {
        /// The local that is set.
        to: u32,
        /// The pointer.
        base: Simple,
        /// The number of the struct that it points to.
        of_struct: u32,
        /// The number of the field in that struct.
        field: u32,
        /// The access.
        site: Site,
    },
    /// `base->field = value`.
    Store {
        /// The pointer.
        base: Simple,
        /// The number of the struct that it points to.
        of_struct: u32,
        /// The number of the field in that struct.
        field: u32,
        /// The field's new word.
        value: Simple,
        /// The access.
        site: Site,
    },
    /// `to = alloc(struct)`.
    New {
        /// The local that is set.
        to: u32,
        /// The number of the struct.
        of_struct: u32,
    },
    /// A call of a function of the program.
    Call {
        /// The local that the result is written to.
        to: Option<u32>,
        /// The number of the function.
        function: u32,
        /// The locals whose words it takes, one for each parameter.
        arguments: Items<u32>,
        /// Where the callee's `requires` is decided.
        site: Site,
    },
    /// A library call.
    Library {
        /// The local that the result is written to.
        to: Option<u32>,
        /// Which one.
        call: LibraryCall,
        /// What `printint` and `printbool` write.
        argument: Option<Simple>,
        /// The number of the text that `print` and `println` write.
        text: Option<u32>,
        /// Where `readint` faults.
        site: Option<Site>,
    },
    /// A branch: an `if`, or a `&&`, `||` or `?:` that sets a temporary.
    If {
        /// Which side was taken.
        decision: Decision,
        /// The truth that is tested.
        condition: Simple,
        /// What is done where it is true.
        yes: Items<CoreStmt>,
        /// What is done where it is false.
        no: Items<CoreStmt>,
    },
    /// A loop.
    Loop {
        /// The invariant at the first head.
        entry: Site,
        /// The invariant at later heads.
        again: Site,
        /// Holds at each head.
        invariant: Formula,
        /// Whether a further turn was taken.
        decision: Decision,
        /// What computes the condition, at each head.
        test: Items<CoreStmt>,
        /// The truth that is tested.
        condition: Simple,
        /// What is done in each turn.
        body: Items<CoreStmt>,
    },
    /// Ends the call.
    Return {
        /// Its result.
        value: Option<Simple>,
        /// Where `ensures` is decided.
        site: Site,
    },
    /// `assert(..)` of the code.
    Assert {
        /// The truth that is asserted.
        condition: Simple,
        /// Where it faults.
        site: Site,
    },
    /// `error(..)`.
    Raise {
        /// The number of its text.
        text: u32,
        /// Where it faults.
        site: Site,
    },
    /// An annotation.
    Note {
        /// What it states.
        note: Note,
        /// Where it is decided.
        site: Site,
    },
}

/// A function of the core.
#[derive(Drop)]
pub struct CoreFunction {
    /// Its name.
    pub name: Items<u8>,
    /// The place of its name.
    pub place: Place,
    /// How many of the locals are parameters: the first ones.
    pub params: u32,
    /// The names and shapes of its locals, by number.
    pub locals: Items<(Items<u8>, Shape)>,
    /// The shapes of its temporaries, whose numbers follow those of the locals.
    pub temps: Items<Shape>,
    /// The shape of its result, where it has one.
    pub result: Option<Shape>,
    /// Its `requires`, over the parameters.
    pub before: Formula,
    /// Its `ensures`, over the parameters and `\result`.
    pub after: Formula,
    /// Whether no `?` stands in it, nor in a function that it reaches by calls.
    pub plain: bool,
    /// How many decision paths it has, up to one more than the limit.
    pub paths: u64,
    /// Its decisions by number.
    pub decisions: Items<DecisionAt>,
    /// Its sites.
    pub sites: SiteTable,
    /// Its statements.
    pub body: Items<CoreStmt>,
}

/// A whole program in core form.
#[derive(Drop)]
pub struct Core {
    /// The structs by number.
    pub structs: Items<Struct>,
    /// The predicates by number.
    pub predicates: Items<Predicate>,
    /// The functions by number.
    pub functions: Items<CoreFunction>,
    /// The number of the function `main`.
    pub main: u32,
    /// The texts of the string literals by number.
    pub texts: Items<Items<u8>>,
}
