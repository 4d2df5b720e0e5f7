//! The two serial ports.
ghost use Rattle.std.specs.Prelude.{◌≡◌};
ghost use Rattle.console_terminal.specs.Commands.{number_of_port};

/// A serial port, which has a terminal.
#[derive(Debug, Clone, Copy, PartialEq, Eq)]
pub enum Port {
    Zero,
    One,
}

impl Port {
    /// Its number.
    pub fn number(self) -> u8
        ensures { result ≡ number_of_port self }
    {
        match self {
            Port::Zero => 0,
            Port::One => 1,
        }
    }
}
