//! What follows from the definitions alone.
ghost use Rattle.board_image.specs.DraftedBoard.{BoardsAreCopiedAsGuests};
ghost use Rattle.board_image.specs.DraftLaws.{DraftsBegin, DraftsKeepUp};

/// The image of a guest describes the copy of a board with it: its parts are the board's, and parts make a board exactly
/// if they make its guest.
pub fn boards_are_copied_as_guests()
    ensures { BoardsAreCopiedAsGuests }
{}

/// A new draft is one of any board, and stays one: pages that are copied are the board's, and a page that was copied at
/// its present version was not written since. Holds of each step and each input, one after another.
pub fn drafts_keep_up()
    ensures begins { DraftsBegin }
    ensures stays { DraftsKeepUp }
{}
