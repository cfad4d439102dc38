//! Tests of what the program `dwcheck` writes, through `dw_check::request` and `dw_check::run`,
//! which do all of its work but reading and writing files. The folder `tests/dwcheck` has more
//! cases, which are run by the program itself.

pub(crate) mod cases;
mod reads;
mod words;
mod worked;
mod writes;
