//! The functions that the library exports to C. c/include/dwcheck.h declares them and says how to
//! call them.
#![tactic(auto)]

mod backtrace;
mod both_sections;
mod cached_walks;
mod checks;
mod cursor;
mod expressions;
mod handle;
mod in_place;
mod left_out;
mod listed_registers;
mod lists;
mod module;
mod module_check;
mod modules_pointer;
mod names;
mod one_list;
mod process_reader;
mod processes;
mod read_right;
mod records;
mod reports;
mod right_part;
mod rule_bytes;
mod signals;
mod stacks;
mod usual_steps;
