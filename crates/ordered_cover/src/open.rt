// The open boxes of a search: those that are still to be asked.
ghost use Rattle.std.specs.Prelude.{◌≡◌, List, [], ◌∷◌, ◌++◌, IfOk, IfNone, IfSome, OnOk};
ghost use Rattle.std.specs.List.Sorted.{IsPermutation};
ghost use Rattle.header_boxes.specs.Boxes.{low_of};
ghost use Rattle.ordered_cover.specs.Open.{IsLeast};

use crate::corner::ByCorner;
use header_boxes::Box5;
use std::alloc::{AllocError, Global};
use std::collections::BinaryHeap;
use std::marker::Model;

/// Boxes of which the one with the least low corner comes out first.
pub struct OpenBoxes {
    heap: BinaryHeap<ByCorner>,
}

impl Drop for OpenBoxes {
    fn drop(self) {
        let OpenBoxes { heap } = self;
        drop(heap);
    }
}

impl Model for OpenBoxes {
    ghost use Rattle.std.specs.Prelude.{List, map};
    ghost use Rattle.std.specs.BinaryHeap.{IsHeap, heap_items};
    ghost use Rattle.header_boxes.specs.declared.boxes.Box5.{Box5 as Part};
    ghost use Rattle.ordered_cover.specs.Corner.{later_first};

    ghost Value = { List Part };

    ghost view = { λ o. map (λ b. b.part) (heap_items o.heap) };

    ghost invariant = { λ o. IsHeap later_first (heap_items o.heap) };
}

impl OpenBoxes {
    pub fn of(alloc: Global, first: Box5) -> Result<OpenBoxes, AllocError>
        ensures { IfOk result (λ o. o ≡ first ∷ []) }
    {
        let mut heap = BinaryHeap::new(alloc);
        heap.push(ByCorner { part: first })?;
        Ok(OpenBoxes { heap })
    }

    /// Takes out the box with the least low corner.
    pub fn take_first(&mut self) -> Option<Box5>
        ensures none { IfNone result (self.old ≡ []) }
        ensures taken { IfSome result (λ b. IsPermutation self.old (b ∷ self.new)) }
        ensures least { IfSome result (λ b. IsLeast b self.old) }
    {
        let first = self.heap.pop()?;
        Some(first.part)
    }

    pub fn push(&mut self, part: Box5) -> Result<(), AllocError>
        ensures { OnOk result (IsPermutation (part ∷ self.old) self.new) }
    {
        self.heap.push(ByCorner { part })?;
        Ok(())
    }

    pub fn extend(&mut self, boxes: &[Box5]) -> Result<(), AllocError>
        ensures { OnOk result (IsPermutation (self.old ++ boxes.now) self.new) }
    {
        for b in boxes {
            self.push(*b)?;
        }
        Ok(())
    }
}
