//! The result of looking up an address in the modules of a process.

use dw_bytes::Target;
use dw_rules::UnwindRow;

/// The row found for an address of a running process, and its module.
#[derive(Debug, Drop)]
pub struct FoundRow<'p> {
    /// The id of the module.
    pub id: u64,
    /// The number that the caller gave to the module.
    pub cookie: u64,
    /// The load address of the module.
    pub load_address: u64,
    /// The target of the module: it says how to read the expressions of the row.
    pub target: Target,
    /// The row. Its own addresses are as linked, not as loaded.
    pub row: UnwindRow<'p, 'p>,
    /// The register that the CIE names for the return address.
    pub return_register: u16,
}
