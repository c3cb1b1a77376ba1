//! Expressions ("Expressions" of the core specification).
ghost use Rattle.std.specs.Prelude.{◌≡◌};
ghost use Rattle.wasm_code.specs.Code.{IsNested};

use crate::instr::Instr;
use sim_base::List;
use std::marker::Model;

/// Instructions up to and with the last `end`, whose blocks are nested.
#[derive(Drop)]
pub struct Expr {
    code: List<Instr>,
}

impl Model for Expr {
    ghost use Rattle.std.specs.Prelude.{List};
    ghost use Rattle.wasm_code.specs.declared.instr.Instr.{Instr};
    ghost use Rattle.wasm_code.specs.Code.{IsNested};

    ghost Value = { List Instr };

    ghost view = { λ a. a.code };

    ghost invariant = { λ a. IsNested a.code };
}

impl Expr {
    pub fn new(code: List<Instr>) -> Expr
        requires { IsNested code }
        ensures { result ≡ code }
    {
        Expr { code }
    }

    pub fn as_slice(&self) -> &[Instr]
        ensures code { result.now ≡ self.now }
        ensures nested { IsNested self.now }
    {
        self.code.as_slice()
    }
}
