ghost use Rattle.std.specs.Prelude.{◌++◌, ◌∷◌, [], List, OnOk};
ghost use Rattle.script_tree.specs.Stmts.{BlockTree};
ghost use Rattle.script_tree.specs.Programs.{program_tree};
ghost use Rattle.script_machine.specs.declared.frames.OpenBlock.{OpenBlock as Opened};
ghost use Rattle.script_machine.specs.Frames.{body_at};
ghost use Rattle.script_machine.specs.OpenBlocks.{IsOpen};

use crate::frames::{Frame, OpenBlock, body, within};
use script_check::Checked;
use script_tree::Stmt;
use std::alloc::{AllocError, Global};

/// The open blocks of the topmost frame, as the program holds them: the innermost, and those around it from the
/// outermost in.
#[derive(Drop)]
pub struct Open<'a> {
    pub around: Vec<&'a [Stmt]>,
    pub block: &'a [Stmt],
}

impl<'a> Open<'a> {
    /// No blocks.
    pub fn new(alloc: Global) -> Open<'a> {
        Open {
            around: Vec::new(alloc),
            block: &[],
        }
    }

    /// Goes into a block within the innermost.
    pub fn enter(&mut self, opened: OpenBlock) -> Result<(), AllocError>
        ensures { OnOk result ((whole : BlockTree) (path : List Opened) → IsOpen whole path self.old → IsOpen whole (path ++ opened ∷ []) self.new) }
    {
        self.around.push(self.block)?;
        self.block = within(self.block, opened);
        Ok(())
    }

    /// Goes back to the block around the innermost.
    pub fn leave(&mut self)
        ensures { (whole : BlockTree) (path : List Opened) (one : Opened) → IsOpen whole (path ++ one ∷ []) self.old → IsOpen whole path self.new }
    {
        match self.around.pop() {
            None => {}
            Some(block) => self.block = block,
        }
    }

    /// Looks up all the blocks of a frame, from its method's body inwards.
    pub fn follow(&mut self, checked: &'a Checked, frame: &Frame) -> Result<(), AllocError>
        ensures { OnOk result (IsOpen (body_at (program_tree checked.now) frame.now.post) frame.now.path.items self.new) }
    {
        self.around.clear();
        self.block = body(frame.post, checked);
        for opened in &frame.path {
            self.enter(*opened)?;
        }
        Ok(())
    }
}
