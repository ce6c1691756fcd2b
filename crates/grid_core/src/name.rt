//! Names of segments: an editor from 1 to 64, and a serial number from 1 on.

ghost use Rattle.std.specs.Prelude.{◌≡◌, ◌↔◌, IsNone, IfSome};
ghost use Rattle.std.proofs.Common.{rules};
ghost use Rattle.std.specs.Cmp.{po};
ghost use Rattle.std.specs.Cmp.Rules.{comparing};
ghost use Rattle.std.specs.Ordering.{as_partial_cmp};
ghost use Rattle.grid_core.specs.Name.{IsLabel, IsNoName};

use std::cmp::Ordering;
use std::marker::Model;

/// The name of a segment: the editor who drew it, and that editor's serial number of it.
/// Names are ordered by editor, then by serial.
#[derive(Clone, Copy, Debug, PartialEq, Eq)]
pub struct Name {
    editor: u8,
    serial: u16,
}

impl Model for Name {
    ghost use Rattle.grid_core.specs.Name.{Label, IsLabel};

    ghost Value = { Label };

    ghost view = { λ n. record { editor = n.editor; serial = n.serial } };

    ghost invariant = { λ n. IsLabel (record { editor = n.editor; serial = n.serial }) };

    ghost inverse = { λ n. record { editor = n.editor; serial = n.serial } };
}

impl Name {
    /// The name of this editor and serial.
    /// `None` where the editor isn't one of 1 to 64, or the serial is 0.
    pub fn new(editor: u8, serial: u16) -> Option<Name>
        ensures none { IsNone result ↔ IsNoName editor serial }
        ensures value { IfSome result (λ n. n ≡ record { editor = editor; serial = serial }) }
    {
        if editor == 0 || editor > 64 || serial == 0 {
            return None;
        }
        Some(Name { editor, serial })
    }

    /// The editor, 1 to 64.
    pub fn editor(&self) -> u8
        ensures value { result ≡ self.now.editor }
        ensures kept { IsLabel self.now }
    {
        self.editor
    }

    /// The serial number, 1 to 65,535.
    pub fn serial(&self) -> u16
        ensures value { result ≡ self.now.serial }
        ensures kept { IsLabel self.now }
    {
        self.serial
    }
}

impl Ord for Name {
    ghost use Rattle.grid_core.specs.Name.{label_cmp};
    ghost use Rattle.grid_core.specs.Orders.{names_in_order};

    ghost cmp = { label_cmp };

    ghost total = { names_in_order };

    ghost matches_partial_cmp = { Prim.search (comparing, rules) };

    ghost matches_eq = { Prim.search (comparing, rules) };

    fn cmp(&self, other: &Name) -> Ordering {
        self.editor
            .cmp(&other.editor)
            .then(self.serial.cmp(&other.serial))
    }
}

impl PartialOrd for Name {
    ghost use Rattle.grid_core.specs.Name.{label_cmp};
    ghost use Rattle.grid_core.specs.Orders.{names_in_order};

    ghost partial_cmp = { as_partial_cmp label_cmp };

    ghost laws = { po names_in_order (Prim.search (comparing, rules)) };

    fn partial_cmp(&self, other: &Name) -> Option<Ordering> {
        Some(self.cmp(other))
    }
}

/// The name 1.1. It fills the unused places of a list that keeps some in the value.
impl Default for Name {
    ghost is_default = { λ n. n ≡ record { editor = 1; serial = 1 } };

    fn default() -> Name {
        Name {
            editor: 1,
            serial: 1,
        }
    }
}
