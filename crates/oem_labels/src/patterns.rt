ghost use Rattle.std.specs.Prelude.{◌↔◌, IsTrue};
ghost use Rattle.oem_labels.specs.Labels.{TextFits};

use lore_base::{OemText, Pattern, is_matched};

/// Whether a label with this text fits the pattern: the text is that of `Plain`, or is matched by
/// that of `Wild`. Takes no memory.
pub fn fits(pattern: &Pattern, text: &OemText) -> bool
    ensures { IsTrue result ↔ TextFits pattern.now text.now }
{
    match pattern {
        Pattern::Plain(own) => own == text,
        Pattern::Wild(wild) => is_matched(wild.as_bytes(), text.as_bytes()),
    }
}
