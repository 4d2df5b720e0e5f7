//! What follows from the definitions alone.

ghost use Rattle.log_channel.specs.Laws.{KeepsHolding, OneMeaning, OneSpelling, ReadsAgain};

/// What is written is read back, nothing else is read as that packet, and no two packets are written alike.
pub fn packets_spell_one_way()
    ensures again { ReadsAgain }
    ensures one_spelling { OneSpelling }
    ensures one_meaning { OneMeaning }
{}

/// What the backup has held is a prefix of the log, whatever packets were lost, repeated or reordered.
pub fn what_is_held_was_sent()
    ensures { KeepsHolding }
{}
