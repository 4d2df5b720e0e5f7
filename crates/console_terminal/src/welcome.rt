//! What a console says first.
ghost use Rattle.std.specs.Prelude.{◌≡◌, ◌++◌, ◌∷◌, ◌<◌, [], IfOk, OnOk, string_bytes};
ghost use Rattle.console_terminal.specs.Greeting.{byte_name, digit_code, digits_of, greeting_of, key_name};

use std::alloc::{AllocError, Global};

/// The line that a console says first, which names its escape key.
pub fn greeting(alloc: Global, escape: u8) -> Result<String, AllocError>
    ensures { IfOk result (λ text. string_bytes text ≡ greeting_of escape) }
{
    let mut text = String::new(alloc);
    text.push_str("pair: an Altair 8800 on two hosts. ")?;
    push_name(&mut text, escape)?;
    text.push_str(" opens a line of commands; help lists them.\r\n")?;
    Ok(text)
}

// Adds what a key is called.
fn push_name(text: &mut String, key: u8) -> Result<(), AllocError>
    ensures { OnOk result (string_bytes text.new ≡ string_bytes text.old ++ key_name key) }
{
    if key == 0 {
        return push_byte(text, key);
    }
    if key < 27 {
        text.push_str("Ctrl-")?;
        return push_ascii(text, 64 + key);
    }
    if key == 27 {
        return text.push_str("ESC");
    }
    push_byte(text, key)
}

// Adds a byte as what it is called.
fn push_byte(text: &mut String, byte: u8) -> Result<(), AllocError>
    ensures { OnOk result (string_bytes text.new ≡ string_bytes text.old ++ byte_name byte) }
{
    text.push_str("the byte ")?;
    push_digits(text, byte)
}

// Adds a byte in two hexadecimal digits.
fn push_digits(text: &mut String, byte: u8) -> Result<(), AllocError>
    ensures { OnOk result (string_bytes text.new ≡ string_bytes text.old ++ digits_of byte) }
{
    push_ascii(text, digit_code(byte / 16))?;
    push_ascii(text, digit_code(byte % 16))
}

// Adds a character of ASCII.
#[tactic(auto, using(std::proofs::lemmas::Str::encode_ascii))]
fn push_ascii(text: &mut String, code: u8) -> Result<(), AllocError>
    requires { code < 128 }
    ensures { OnOk result (string_bytes text.new ≡ string_bytes text.old ++ code ∷ []) }
{
    text.push(char::from(code))
}

// The character of a hexadecimal digit.
fn digit_code(number: u8) -> u8
    requires { number < 16 }
    ensures code { result ≡ digit_code number }
    ensures ascii { result < 128 }
{
    if number < 10 {
        b'0' + number
    } else {
        b'A' - 10 + number
    }
}
