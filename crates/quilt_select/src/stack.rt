ghost use Rattle.std.specs.Prelude.{◌≡◌, [], ◌∷◌, IfSome, IfNone, OnOk};

use quilt_types::{Block, Window};
use std::alloc::{AllocError, Global};
use std::marker::Model;

/// Blocks that wait to be opened, each with the windows that share a pixel with it. The last comes out first.
#[derive(Drop)]
pub struct Stack {
    waiting: Vec<(Block, Vec<Window>)>,
}

impl Model for Stack {
    ghost use Rattle.std.specs.Prelude.{List, map, reverse};
    ghost use Rattle.quilt_types.specs.declared.plane.Block.{Block};
    ghost use Rattle.quilt_types.specs.declared.plane.Window.{Window};

    ghost Value = { List (Block × List Window) };

    ghost view = { λ s. reverse (map (λ e. (e.0, e.1.items)) s.waiting.items) };
}

impl Stack {
    /// An empty stack. It takes no memory, and keeps the allocator.
    pub fn new(alloc: Global) -> Stack
        ensures { result ≡ [] }
    {
        Stack {
            waiting: Vec::new(alloc),
        }
    }

    /// Puts a block on top.
    pub fn push(&mut self, block: Block, near: Vec<Window>) -> Result<(), AllocError>
        ensures { OnOk result (self.new ≡ (block, near.items) ∷ self.old) }
    {
        self.waiting.push((block, near))?;
        Ok(())
    }

    /// Takes the block on top.
    pub fn pop(&mut self) -> Option<(Block, Vec<Window>)>
        ensures taken { IfSome result (λ e. self.old ≡ (e.0, e.1.items) ∷ self.new) }
        ensures none { IfNone result (self.old ≡ []) }
    {
        self.waiting.pop()
    }
}
