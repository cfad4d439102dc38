//! Checks a frame section and a section of location lists together.

ghost use Rattle.std.specs.Prelude.{◌≡◌, ◌≤◌, ◌<◌, ◌^◌, ◌⊎◌, length, IfOk, IfErr};
ghost use Rattle.dw_bytes.specs.Answers.{memory};
ghost use Rattle.dw_rows.specs.Section.{frame_of};
ghost use Rattle.dw_sections.specs.Checked.{AreWellFormed, Checks, check_fault, fault_within, length_fault, bytes_within};

use crate::laws::sections_without_fault_are_well_formed;
use crate::section::Section;
use dw_bytes::{Fault, FaultKind, Target};
use dw_loclists::{CheckedLists, check_lists};
use dw_rows::{CheckedFrame, check_frame};
use std::alloc::Global;
use std::error::Error;
use std::fmt;

/// Sections and expressions of this many bytes or more are refused.
pub const SECTION_LIMIT: usize = 1 << 32;

/// The fault of a section or expression that is too long.
pub const TOO_LONG: Fault = Fault {
    kind: FaultKind::SectionTooLong,
    at: 0,
};

/// Why `check` refuses two sections: the first fault in the order in which `check` looks, or that
/// memory ran out.
#[derive(Clone, Copy, Debug, PartialEq, Eq)]
pub struct CheckFault {
    /// The section that has the fault, never `Section::Expression`. It has no meaning if memory ran
    /// out.
    pub section: Section,
    /// The fault, with its offset in the section.
    pub fault: Fault,
}

/// The section, then the fault: `frame: 9 NoSuchCie at 0x0000001c`.
impl fmt::Display for CheckFault {
    ghost use Rattle.std.specs.Prelude.{Some};
    ghost use Rattle.dw_sections.specs.Text.{check_fault_text};

    ghost output = { λ found. Some (check_fault_text found) };

    #[tactic(auto, unfolding(crate::specs::Text::check_fault_text))]
    fn fmt<W: fmt::Write>(&self, f: &mut fmt::Formatter<W>) -> fmt::Result {
        write!(f, "{}: {}", self.section.text(), self.fault)
    }
}

impl Error for CheckFault {}

/// A `.debug_frame` and a `.debug_loclists` section that were checked together, for one target.
///
/// ```rust
/// match check(alloc, frame, lists, target) {
///     Ok(checked) => println!(rt; "{} FDEs", checked.frame().fdes().len())?,
///     Err(found) => println!(rt; "{found}")?,
/// }
/// ```
#[derive(Drop)]
pub struct Checked<'a> {
    frame: CheckedFrame<'a>,
    lists: CheckedLists<'a>,
    pub ghost one_target: { lists.target ≡ frame.target },
}

/// Checks that a section has fewer than 2^32 bytes.
fn check_length(section: Section, bytes: &[u8]) -> Result<(), CheckFault>
    ensures answer { Checks (fault_within section (length_fault bytes.now)) result }
    ensures short { IfOk result (λ _. length bytes.now < 2 ^ 32) }
    ensures place { IfErr result (λ found. (found.section ≡ section) × (found.fault.at ≡ 0)) }
{
    if bytes.len() >= SECTION_LIMIT {
        return Err(CheckFault {
            section,
            fault: TOO_LONG,
        });
    }
    Ok(())
}

/// Checks the lengths of both sections, and then the sections, the frame section first in each
/// case. Stops at the first fault.
#[tactic(auto, unfolding(crate::specs::Checked::check_fault))]
fn check_both<'a>(
    alloc: Global,
    frame: &'a [u8],
    lists: &'a [u8],
    target: Target,
) -> Result<Checked<'a>, CheckFault>
    ensures answer { Checks (check_fault target frame.entry.now lists.entry.now) result }
    ensures section { IfErr result (λ found.
        (found.section ≡ Section.Frame) ⊎ (found.section ≡ Section.Lists)) }
    ensures inside { IfErr result (λ found.
        found.fault.at ≤ length (bytes_within found.section frame.entry.now lists.entry.now)) }
    ensures frame { IfOk result (λ checked. checked.frame ≡ frame_of target frame.entry.now) }
    ensures lists { IfOk result (λ checked.
        checked.lists ≡ record { target = target; section = lists.entry.now }) }
{
    check_length(Section::Frame, frame)?;
    check_length(Section::Lists, lists)?;
    let frame = match check_frame(alloc, frame, target) {
        Ok(frame) => frame,
        Err(fault) => {
            return Err(CheckFault {
                section: Section::Frame,
                fault,
            });
        }
    };
    let lists = match check_lists(alloc, lists, target) {
        Ok(lists) => lists,
        Err(fault) => {
            return Err(CheckFault {
                section: Section::Lists,
                fault,
            });
        }
    };
    Ok(Checked { frame, lists })
}

/// Checks two sections for a target, in this order: the length of the frame section, the length of
/// the lists, the frame section (as `check_frame` does), the lists (as `check_lists` does). The
/// error is the first fault in that order, or that memory ran out.
pub fn check<'a>(
    alloc: Global,
    frame: &'a [u8],
    lists: &'a [u8],
    target: Target,
) -> Result<Checked<'a>, CheckFault>
    ensures answer { Checks (check_fault target frame.entry.now lists.entry.now) result }

    // `check` accepts only well-formed sections, and refuses well-formed sections only if memory
    // runs out.
    ensures accepts { IfOk result (λ _. AreWellFormed target frame.entry.now lists.entry.now) }
    ensures refuses { IfErr result (λ found. (found.fault ≡ memory)
        ⊎ ¬ AreWellFormed target frame.entry.now lists.entry.now) }
    ensures section { IfErr result (λ found.
        (found.section ≡ Section.Frame) ⊎ (found.section ≡ Section.Lists)) }
    ensures inside { IfErr result (λ found.
        found.fault.at ≤ length (bytes_within found.section frame.entry.now lists.entry.now)) }
    ensures frame { IfOk result (λ checked. checked.frame ≡ frame_of target frame.entry.now) }
    ensures lists { IfOk result (λ checked.
        checked.lists ≡ record { target = target; section = lists.entry.now }) }
{
    sections_without_fault_are_well_formed();
    check_both(alloc, frame, lists, target)
}

impl<'a> Checked<'a> {
    /// The frame section: its CIEs, FDEs and rows.
    pub fn frame(&self) -> &CheckedFrame<'a>
        ensures { result.now ≡ self.now.frame }
    {
        &self.frame
    }

    /// The location lists. They have the same target as the frame section.
    pub fn lists(&self) -> &CheckedLists<'a>
        ensures lists { result.now ≡ self.now.lists }
        ensures target { self.now.lists.target ≡ self.now.frame.target }
    {
        &self.lists
    }
}
