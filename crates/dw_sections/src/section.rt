//! Which input a fault is in.

ghost use Rattle.std.specs.Prelude.{◌≡◌};
ghost use Rattle.dw_sections.specs.Text.{section_text};

/// Which input a refusal's offset refers to.
#[derive(Clone, Copy, Debug, PartialEq, Eq)]
pub enum Section {
    /// A `.debug_frame` section.
    Frame,
    /// A `.debug_loclists` section.
    Lists,
    /// An expression that is checked by itself, not as part of a section.
    Expression,
}

impl Section {
    /// The word for this input in the line of a refusal.
    pub fn text(self) -> &'static str
        ensures { result.now ≡ section_text self }
    {
        match self {
            Section::Frame => "frame",
            Section::Lists => "lists",
            Section::Expression => "expression",
        }
    }
}
