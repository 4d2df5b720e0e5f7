//! What follows from the definitions alone.
ghost use Rattle.clone_state.specs.Gathering.{BeginsOfImage, IsWholeWhenAllCame, StaysOfImage, WholeMakesIt};
ghost use Rattle.clone_state.specs.Laws.{
  BoardsCanBeRebuilt,
  FirstIsWrittenSo,
  IndexesAreWithin,
  MessageIsReadAgain,
  MessageIsWrittenSo,
  OldPartsMakeIt,
  PartsAreReadAgain,
  PartsAreCounted,
  PartsAreWrittenSo,
  PartsHaveSizes,
  PartsMakeIt,
  SaysItAll,
};
ghost use Rattle.clone_state.specs.Possible.{ControllersAreDecided};

/// The parts of a machine make that machine again, also with the first part in version 01 if no port has more than one
/// unaccepted byte. An image has as many parts as its drives ask for.
pub fn parts_make_their_machines()
    ensures says { SaysItAll }
    ensures makes { PartsMakeIt }
    ensures old { OldPartsMakeIt }
    ensures counted { PartsAreCounted }
    ensures sizes { PartsHaveSizes }
{}

/// Every part has one spelling, except that the first may also be in version 01.
pub fn parts_are_written_one_way()
    ensures first { FirstIsWrittenSo }
    ensures parts { PartsAreWrittenSo }
{}

/// A part's message is read again, and each such message has one spelling.
pub fn messages_are_written_one_way()
    ensures again { MessageIsReadAgain }
    ensures one_way { MessageIsWrittenSo }
{}

/// Each of the parts that make a guest is read again from its message, and a part that is read has an index of the image.
pub fn parts_are_read_again()
    ensures again { PartsAreReadAgain }
    ensures within { IndexesAreWithin }
{}

/// The tests of a controller pass exactly for what a controller can be.
pub fn controllers_are_decided()
    ensures { ControllersAreDecided }
{}

/// What is read is never refused by a board: its parts pass the board's own tests, and describe the machine that the
/// image makes.
pub fn boards_can_be_rebuilt()
    ensures { BoardsCanBeRebuilt }
{}

/// If the parts that arrive are of one image, in whatever order, with parts that are lost or repeated, the assembly is
/// whole exactly when each of them has arrived, and then it makes the machine of the image.
pub fn assemblies_gather_images()
    ensures begins { BeginsOfImage }
    ensures stays { StaysOfImage }
    ensures whole { IsWholeWhenAllCame }
    ensures makes { WholeMakesIt }
{}
