//! How many variables a global is.

ghost use Rattle.std.specs.Prelude.{◌≡◌};
ghost use Rattle.forec_tree.specs.Plain.{plain_global};
ghost use Rattle.forec_tree.specs.Scopes as scopes;
ghost use Rattle.forec_tree.specs.Variables as variables;

use crate::tree::{Global, GlobalKind, Number};

fn may_be_array(kind: GlobalKind) -> bool
    ensures { result ≡ scopes.may_be_array kind }
{
    matches!(
        kind,
        GlobalKind::Const | GlobalKind::Shared | GlobalKind::SharedOutput
    )
}

impl Number {
    /// How many elements an array of this length has: none where it is below 1.
    pub fn elements(self) -> u32
        ensures { result ≡ variables.elements self }
    {
        if self.value < 0 {
            return 0;
        }
        self.value as u32
    }
}

impl Global {
    /// The length of a global that is an array: a constant or a shared variable alone may be one.
    pub fn stated_length(&self) -> Option<Number>
        ensures { result ≡ scopes.stated_length (plain_global self.now) }
    {
        if may_be_array(self.kind) {
            self.length
        } else {
            None
        }
    }

    /// How many variables a global is that isn't a constant: one, or as many as an array has elements.
    pub fn width(&self) -> u32
        ensures { result ≡ variables.width (plain_global self.now) }
    {
        match self.stated_length() {
            None => 1,
            Some(length) => length.elements(),
        }
    }
}
