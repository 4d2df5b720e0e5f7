//! What room for a key means. Nothing here runs.
ghost use Rattle.board_image.specs.Room.{KeysAreKept};

/// A key that comes where there is room waits to be read, and one that comes where there is none is lost.
pub fn keys_are_kept()
    ensures { KeysAreKept }
{}
