//! The instructions of the stack machine.

use gc0_base::{Site, Word};
use gc0_tree::{Formula, Program};
use sqlite_items::Items;

/// The words that a checked formula speaks of.
#[derive(Clone, Copy)]
pub enum Words {
    /// The locals of the frame.
    Locals,
    /// So many operands, the arguments of a call. The last argument is on top.
    Arguments(usize),
    /// So many locals of the frame, its parameters, and then the top operand, the result.
    WithResult(usize),
}

/// An instruction of the stack machine. Each takes its operands off the stack and puts its result
/// there. `a b -> r` shows the operands, the top one last.
#[derive(Clone, Copy)]
pub enum Instr<'a> {
    /// `-> w`: a constant.
    Push(Word),
    /// `-> v`: reads the local of this number.
    Load(usize),
    /// `v ->`: writes the local of this number.
    Save(usize),
    /// `v ->`
    Drop,
    /// `a -> r`: minus.
    Neg,
    /// `a -> r`: 1 for 0, and else 0.
    Flip,
    /// `a b -> r`: the sum.
    Add,
    /// `a b -> r`: the difference.
    Sub,
    /// `a b -> r`: the product.
    Mul,
    /// `a b -> r`: whether `a < b`.
    Less,
    /// `a b -> r`: whether `a <= b`.
    LessEq,
    /// `a b -> r`: whether `a == b`.
    Equal,
    /// Goes on with the instruction of this number in the function.
    Jump(usize),
    /// `c ->`: goes on with the instruction of this number where `c` is false, and else with the
    /// next one.
    JumpFalse(usize),
    /// Takes a step, or ends the run where none is left.
    Step,
    /// `arguments -> result`: a new frame for the function of this number. `Return` ends it.
    Call(usize),
    /// `v ->`: ends the frame with this result, or the run where no frame waits for it.
    Return,
    /// `v ->`: writes the decimal number.
    PrintInt,
    /// `v ->`: writes `true` or `false`.
    PrintBool,
    /// Stops the run at the site where the formula doesn't hold. Operands stay as they are.
    CheckWhole {
        /// Where the run stops.
        site: Site,
        /// What is checked, as it stands in the program.
        formula: &'a Formula,
        /// The words that the formula speaks of.
        words: Words,
    },
}

/// The code of a function.
#[derive(Drop)]
pub struct FunctionCode<'a> {
    /// How many of its locals are parameters: the first ones.
    pub params: usize,
    /// How many locals a frame of it has, parameters included. The others begin with 0.
    pub locals: usize,
    /// Its instructions. A frame begins with the first one; the targets of jumps are indexes here.
    pub instrs: Items<Instr<'a>>,
}

/// The code of a program.
#[derive(Drop)]
pub struct Code<'a> {
    /// The program that it is the code of.
    pub program: &'a Program,
    /// The code of each function, by its number.
    pub functions: Items<FunctionCode<'a>>,
    /// A run starts with a frame of this code, which has no locals and which nobody calls.
    pub start: FunctionCode<'a>,
}
