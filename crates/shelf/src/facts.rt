// Theorems about the definitions that the contracts of this crate use.
ghost use Rattle.shelf.specs.Layout.{FramesYield};
ghost use Rattle.shelf.specs.Order.{RowsInOrder};

// Frames that were laid out yield their texts.
pub fn laid_out_frames_yield()
    ensures { FramesYield }
{}

// The faults of a call are listed in the order of their rows.
pub fn rows_stand_in_order()
    ensures { RowsInOrder }
{}
