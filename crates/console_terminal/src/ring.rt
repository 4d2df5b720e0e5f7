// Rings that may be there or not.
ghost use Rattle.std.specs.Prelude.{◌≡◌, ◌++◌, ◌∷◌, [], ◌↔◌, IsTrue, false, true};
ghost use Rattle.console_terminal.specs.Lines.{HasRoom, IsFull, IsSameEnd, IsSameStart, came_by, found, after_push, gone_by};

use rtrb::{Consumer, Producer};

// The next item of a ring, if there is one.
pub(crate) fn pop<T>(ring: &mut Option<Consumer<T>>) -> Option<T>
    ensures same { IsSameEnd ring.old ring.new }
    ensures came { came_by ring.new ≡ came_by ring.old ++ found result }
{
    match ring {
        Some(ring) => ring.pop().ok(),
        None => None,
    }
}

// Whether a ring has room for one more item; without a ring there is room.
pub(crate) fn has_room<T>(ring: &mut Option<Producer<T>>) -> bool
    ensures same { IsSameStart ring.old ring.new }
    ensures none { gone_by ring.new ≡ gone_by ring.old }
    ensures room { result ≡ true → HasRoom ring.new }
    ensures full { result ≡ false → IsFull ring.new }
{
    match ring {
        Some(ring) => !ring.is_full(),
        None => true,
    }
}

// Puts an item into a ring, if there is one.
pub(crate) fn push<T: Drop>(ring: &mut Option<Producer<T>>, item: T)
    requires { HasRoom ring.old }
    ensures same { IsSameStart ring.old ring.new }
    ensures gone { gone_by ring.new ≡ after_push ring.old item }
{
    match ring {
        Some(ring) => ring.push_reserved(item),
        None => {}
    }
}
