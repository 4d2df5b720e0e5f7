//! The boxes of the table.

ghost use Rattle.std.specs.Prelude.{◌≡◌, ◌<◌};
ghost use Rattle.pair_rule.specs.Boxes.{box_index};

/// A box: who fills it, and who empties it.
#[derive(Clone, Copy)]
pub enum Mailbox {
    /// Packets from the primary to the link.
    Outbox,
    /// Packets from the link to the backup.
    Inbox,
    /// Bytes of port 0 and of port 1, from the primary to the terminals.
    Bytes0,
    Bytes1,
    /// Requests of the primary to the disk, and what the disk answers.
    Requests,
    Answers,
}

// The place of a box among the six; its word is five further.
pub(crate) fn index_of(mailbox: Mailbox) -> usize
    ensures within { result < 6 }
    ensures exact { result ≡ box_index mailbox }
{
    match mailbox {
        Mailbox::Outbox => 0,
        Mailbox::Inbox => 1,
        Mailbox::Bytes0 => 2,
        Mailbox::Bytes1 => 3,
        Mailbox::Requests => 4,
        Mailbox::Answers => 5,
    }
}
