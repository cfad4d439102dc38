//! The rules of unwind rows, and what call frame instructions do to them (DWARF 5, sections 6.4.1
//! and 6.4.2).
#![tactic(auto)]

mod abi;
mod borrowed_expressions;
mod effect;
mod initial_rules;
pub mod laws;
mod owned_expressions;
mod plain_rules;
mod register_rules;
mod remember_stack;
mod row;
mod row_expressions;
mod rule_set;
mod stored_rule;
mod unwind_context;
mod unwind_row;
mod unwind_state;

pub use abi::{Abi, MAX_KEPT};
pub use borrowed_expressions::BorrowedExpressions;
pub use effect::{InstructionEffect, instruction_effect};
pub use initial_rules::{InitialRules, LentRules, RuleSpan};
pub use owned_expressions::{ExpressionList, OwnedExpression, OwnedExpressions};
pub use plain_rules::PlainRules;
pub use register_rules::{MAX_RULES, RuleEntry};
pub use remember_stack::MAX_REMEMBERED;
pub use row::{CfaRule, RegisterRule, RegisterRules, UnwindTableRow};
pub use row_expressions::RowExpressions;
pub use rule_set::RuleSet;
pub use stored_rule::StoredCfa;
pub use unwind_context::{UnwindContext, step_instruction, step_next};
pub use unwind_row::UnwindRow;
pub use unwind_state::UnwindState;
