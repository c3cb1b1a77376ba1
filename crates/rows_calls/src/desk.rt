//! The host that the modules of the rows import from.
ghost use Rattle.std.specs.Prelude.{◌≡◌};
ghost use Rattle.rows_calls.specs.Desk.{imports_of};

use wasm_code::StoreOp;
use wasm_num::{Memory, Trap, Value};
use wasm_semantics::Host;

/// A host that counts its calls. Its functions are, in this order: `(result i32)` answers the count;
/// `(param i32)` writes 90 into the memory at an address; one without parameters and result traps with 13;
/// `(param i64) (result i64)` answers twice its argument.
#[derive(Drop)]
pub struct Desk {
    calls: u32,
    /// Whether the module imports these functions, and not none.
    pub is_imported: bool,
}

impl Desk {
    pub fn new(is_imported: bool) -> Desk
        ensures { result.is_imported ≡ is_imported }
    {
        Desk {
            calls: 0,
            is_imported,
        }
    }
}

impl Host for Desk {
    ghost use Rattle.std.specs.Prelude.{ℕ};
    ghost use Rattle.rows_calls.specs.Desk.{answers, imports_of};

    ghost State = { ℕ };

    ghost state = { λ d. d.calls };

    ghost imports = { λ d. imports_of d.is_imported };

    ghost answers = { answers };

    fn call(
        &mut self,
        import: u32,
        args: &[Value],
        memory: &mut Memory,
    ) -> Result<Option<Value>, Trap> {
        self.calls = self.calls.wrapping_add(1);
        match (import, args) {
            (0, []) => Ok(Some(Value::I32(self.calls))),
            (1, [Value::I32(address)]) => match memory.store(
                StoreOp::I32Store8,
                *address,
                0,
                Value::I32(90),
            ) {
                Ok(()) => Ok(None),
                Err(_) => Err(Trap::HostAddress),
            },
            (3, [Value::I64(n)]) => Ok(Some(Value::I64(n.wrapping_mul(2)))),
            _ => Err(Trap::HostLimit),
        }
    }
}
