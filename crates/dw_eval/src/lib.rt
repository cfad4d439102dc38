//! The evaluation of expressions (DWARF 5, sections 2.5 and 2.6).
#![tactic(auto)]

mod branch_target;
mod change;
mod context;
mod description;
mod environment;
mod evaluation;
mod evaluation_error;
mod execution;
pub mod laws;
mod location;
mod memory_block;
mod rule_expressions;
mod run;
mod stack;
mod width;
mod without_operands;

pub use context::{Context, Memory, Registers};
pub use evaluation::{evaluate, evaluate_rule};
pub use location::{Evaluation, Location, Outcome, Piece, PieceSize};
pub use memory_block::MemoryBlock;
pub use rule_expressions::{RuleEvaluation, RuleOutcome};
pub use width::Width;
