//! What ends a run of a module before its end.
ghost use Rattle.std.specs.Prelude.{◌≡◌};
ghost use Rattle.wasm_num.specs.Traps.{number_of};

/// A trap: of an instruction, of a run's limits (`Exhausted`, `Budget`), of a host call
/// (`HostAddress` to `HostLimit`), or of code that would compute with floats (`Float`).
#[derive(Clone, Copy)]
pub enum Trap {
    Unreachable = 1,
    MemoryBounds = 2,
    DivideByZero = 3,
    Overflow = 4,
    TableBounds = 5,
    NoElement = 6,
    TypeMismatch = 7,
    Exhausted = 8,
    Budget = 9,
    HostAddress = 10,
    HostString = 11,
    HostPhase = 12,
    HostLimit = 13,
    Float = 14,
}

impl Trap {
    /// Its number, from 1 on.
    pub fn number(self) -> u8
        ensures { result ≡ number_of self }
    {
        self as u8
    }
}
