//! What a module's imported functions are to its run.
ghost use Rattle.std.specs.Prelude.{◌≡◌, ℕ, List, IfOk, Some, length, option_to_list, slice_get};
ghost use Rattle.wasm_num.specs.declared.value.Value.{Value};
ghost use Rattle.wasm_num.specs.Mem.{Mem};
ghost use Rattle.wasm_code.specs.declared.types.FuncType.{FuncType};
ghost use Rattle.wasm_semantics.specs.Eval.{Answer};
ghost use Rattle.wasm_semantics.specs.Values.{HasTypes};

use wasm_num::{Memory, Trap, Value};

/// The imported functions of a module, in order.
pub trait Host {
    ghost State: { Type 0 };

    ghost state: { Self → State };

    /// The type of each imported function; no call changes it.
    ghost imports: { Self → List FuncType };

    /// What a call answers and leaves, by the state, the import, the arguments and the memory.
    ghost answers: { State → ℕ → List Value → Mem → Answer State };

    /// Calls an imported function, counted from 0.
    fn call(
        &mut self,
        import: u32,
        args: &[Value],
        memory: &mut Memory,
    ) -> Result<Option<Value>, Trap>
        requires typed { (t : FuncType) × (slice_get (imports self.old) import ≡ Some t) × HasTypes args.now t.params }
        ensures answer { result ≡ (answers (state self.old) import args.now memory.old).answer }
        ensures state { state self.new ≡ (answers (state self.old) import args.now memory.old).host }
        ensures memory { memory.new ≡ (answers (state self.old) import args.now memory.old).memory }
        ensures imports { imports self.new ≡ imports self.old }
        ensures gives { (t : FuncType) → slice_get (imports self.old) import ≡ Some t → IfOk result (λ v. HasTypes (option_to_list v) t.results) }
        ensures size { length memory.new.bytes ≡ length memory.old.bytes };
}
