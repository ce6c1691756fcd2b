//! Changes: what one commit of an editor does to the live list.

ghost use Rattle.std.specs.Prelude.{◌≡◌, ◌<◌, ◌++◌, ◌∷◌, [], IfOk, length};
ghost use Rattle.version_core.specs.Edits.{Changes};

use grid_core::{Memory, Ur};
use std::alloc::Global;
use std::marker::Model;

/// One edit of a drawing.
#[derive(Clone, Copy, Debug, PartialEq, Eq)]
pub enum Edit {
    /// The segment is put into the live list.
    Insert(Ur),
    /// The segment is taken out of the live list.
    Delete(Ur),
}

/// What one commit does: an editor's edits, taken one after the other.
#[derive(Debug, Drop)]
pub struct Change {
    editor: u8,
    edits: Vec<Edit>,
}

impl Model for Change {
    ghost use Rattle.version_core.specs.Edits.{Changes};

    ghost Value = { Changes };

    ghost view = { λ c. record { editor = c.editor; edits = c.edits.items } };
}

impl Change {
    /// The change of this editor with one edit.
    pub fn one(alloc: Global, editor: u8, edit: Edit) -> Result<Change, Memory>
        ensures { IfOk result (λ c. c ≡ record { editor = editor; edits = edit ∷ [] }) }
    {
        let mut edits = Vec::with_capacity(alloc, 1)?;
        edits.push(edit)?;
        Ok(Change { editor, edits })
    }

    /// The change, which has fewer than 32 edits, with one edit more at its end.
    pub fn and(&self, edit: Edit) -> Result<Change, Memory>
        requires { length self.now.edits < 32 }
        ensures { IfOk result (λ c. c ≡ record self.now { edits = self.now.edits ++ edit ∷ [] }) }
    {
        let mut edits = self.edits.clone()?;
        edits.push(edit)?;
        Ok(Change {
            editor: self.editor,
            edits,
        })
    }

    /// The same change, in memory of its own.
    pub(crate) fn copy(&self) -> Result<Change, Memory>
        ensures { IfOk result (λ c. c ≡ self.now) }
    {
        let edits = self.edits.clone()?;
        let editor = self.editor;
        Ok(Change { editor, edits })
    }

    /// The editor.
    pub fn editor(&self) -> u8
        ensures { result ≡ self.now.editor }
    {
        self.editor
    }

    /// The edits in their order.
    pub fn edits(&self) -> &[Edit]
        ensures { result.now ≡ self.now.edits }
    {
        &self.edits
    }
}
