//! Expressions.
ghost use Rattle.std.specs.Prelude.{◌≡◌, reverse, OnOk, false};
ghost use Rattle.wasm_decode.specs.InstrText.{expr, in_expr, at_else, at_end, InExpr};
ghost use Rattle.wasm_decode.specs.ExprViews.{state_of};
ghost use Rattle.wasm_binary.specs.Reads.{Decodes};

use crate::instructions::instruction;
use sim_base::{Fault, List};
use std::alloc::{AllocError, Global};
use wasm_binary::Reader;
use wasm_code::{Expr, Instr};

/// The blocks open at a place of an expression, the innermost last: for each, whether an `else` may
/// come; and whether the last `end` has been read.
#[derive(Drop)]
struct Opened {
    blocks: Vec<bool>,
    ended: bool,
}

/// An expression up to its last `end`.
pub fn read_expr(alloc: Global, reader: &mut Reader) -> Result<Expr, Fault>
    ensures { Decodes expr result reader.old reader.new }
{
    let code = code(alloc, reader)?;
    Ok(Expr::new(code))
}

fn code(alloc: Global, reader: &mut Reader) -> Result<List<Instr>, Fault>
    ensures { Decodes expr result reader.old reader.new }
{
    let mut code = List::new(alloc);
    let mut opened = Opened {
        blocks: Vec::new(alloc),
        ended: false,
    };
    while !opened.ended {
        let instr = instruction(alloc, reader, &opened.blocks)?;
        opened.pass(&instr)?;
        code.push(instr)?;
    }
    Ok(code)
}

impl Opened {
    /// Goes behind an instruction.
    fn pass(&mut self, instr: &Instr) -> Result<(), AllocError>
        requires { self.old.ended ≡ false }
        ensures { OnOk result (state_of self.new ≡ in_expr (state_of self.old) instr.now) }
    {
        match instr {
            Instr::Block(_) | Instr::Loop(_) => self.blocks.push(false)?,
            Instr::If(_) => self.blocks.push(true)?,
            Instr::Else => self.part()?,
            Instr::End => self.end(),
            _ => {}
        }
        Ok(())
    }

    /// Behind an `else` none may come in its block.
    fn part(&mut self) -> Result<(), AllocError>
        ensures { OnOk result (state_of self.new ≡ record { opened = at_else (state_of self.old).opened; ended = self.old.ended }) }
    {
        match self.blocks.pop() {
            Some(_) => self.blocks.push(false)?,
            None => {}
        }
        Ok(())
    }

    /// Behind an `end` its block is closed, or the expression has ended.
    fn end(&mut self)
        requires { self.old.ended ≡ false }
        ensures { state_of self.new ≡ at_end (state_of self.old).opened }
    {
        if self.blocks.pop().is_none() {
            self.ended = true;
        }
    }
}
