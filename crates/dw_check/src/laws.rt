//! Laws about reports and requests. A law is a function that does nothing, whose contract is what
//! the law states.

ghost use Rattle.std.specs.Prelude.{◌≡◌, ◌↔◌, ℕ, List};
ghost use Rattle.dw_check.specs.Report.{IsReport};
ghost use Rattle.dw_loclists.specs.Reading.{IsChecked, ListSection};
ghost use Rattle.dw_rows.specs.Section.{FrameSection};
ghost use Rattle.dw_rows.specs.Section as rows;
ghost use Rattle.dw_requests.specs.LongFiles.{needed_parts};
ghost use Rattle.dw_requests.specs.Requests.{Asked};
ghost use Rattle.dw_check.specs.Runs.{Reply, IsReply};

/// A request has at most one reply (`IsReply` in specs/Runs.antt), whatever its files contain.
pub fn one_reply()
    ensures { (asked : Asked) (files : List (List ℕ)) (r s : Reply) → IsReply asked files r
        → IsReply asked files s → r ≡ s }
{
    one_report();
    dw_unwind::laws::one_caller_through_modules();
    dw_unwind::laws::one_walk_through_modules();
}

/// Each request has a reply, whatever its files contain.
pub fn each_has_a_reply()
    ensures { (asked : Asked) (files : List (List ℕ)) → (r : Reply) × IsReply asked files r }
{
    each_has_a_report();
    dw_unwind::laws::each_address_has_an_unwinding_through_modules();
    dw_unwind::laws::each_has_a_walk_through_modules();
}

/// The reply to a request doesn't depend on any byte of a file after the first
/// `Request::needed_length` bytes.
pub fn needed_parts_decide()
    ensures { (asked : Asked) (files : List (List ℕ)) (reply : Reply)
        → IsReply asked files reply
        ↔ IsReply asked (needed_parts asked.task asked.hex 0 files) reply }
{}

/// There is at most one report on two sections.
pub fn one_report()
    ensures { (frame : FrameSection) (lists : ListSection) (s t : List ℕ) → IsReport frame lists s
        → IsReport frame lists t → s ≡ t }
{
    dw_stack::laws::depths_are_unique();
}

/// There is a report on any two accepted sections.
pub fn each_has_a_report()
    ensures { (frame : FrameSection) (lists : ListSection) → rows.IsChecked frame → IsChecked lists
        → (t : List ℕ) × IsReport frame lists t }
{
    dw_loclists::laws::checked_list_sections();
    dw_rows::laws::checked_frame_sections();
    dw_stack::laws::each_has_a_depth();
}
