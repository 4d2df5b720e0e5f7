//! What follows from the definitions alone.
ghost use Rattle.std.specs.Prelude.{ℕ, ◌≡◌, ◌≤◌, Option, length, IsTrue, ◌↔◌};
ghost use Rattle.i8080_words.specs.declared.registers.Processor.{Processor};
ghost use Rattle.i8080_words.specs.declared.registers.Stepped.TheVariants as stepped;
ghost use Rattle.i8080_words.specs.Limits.{Limits};
ghost use Rattle.i8080_words.specs.Steps.{step, idles};

/// No step makes more than two accesses to memory and ports, not counting reads of memory.
pub fn few_accesses()
    ensures { (p : Processor) (memory : ℕ → ℕ) (ports : ℕ → ℕ) (line : Option ℕ)
        → length (step p memory ports line).accesses ≤ 2 }
{}

/// A step does nothing exactly when the processor is halted and accepts no interrupt.
pub fn idles_where_halted()
    ensures { (p : Processor) (memory : ℕ → ℕ) (ports : ℕ → ℕ) (line : Option ℕ)
        → IsTrue (idles p line) ↔ ((step p memory ports line).kind ≡ stepped.Idle) }
{}

/// The greatest number is 2^62 - 1.
pub fn greatest_number()
    ensures { Limits }
{}
