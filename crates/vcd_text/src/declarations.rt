//! The declarations of variables, with their identifier codes.
ghost use Rattle.std.specs.Prelude.{◌≡◌, ◌<◌, ◌≤◌, ◌++◌, ◌+◌, length, IfOk, OnOk, map};
ghost use Rattle.text_model.specs.Wave.{id_of, declaration, declarations, head};
ghost use Rattle.vcd_text.specs.Variables.{variable_of};

use crate::variable::Variable;
use arrayvec::ArrayVec;
use sim_base::OutOfMemory;
use std::alloc::Global;

/// The identifier code of variable `i`: one printable character for the first 94, then two.
pub(crate) fn identifier_code(i: usize) -> ArrayVec<u8, 2>
    requires { i < 8930 }
    ensures { result.items ≡ id_of i }
{
    let mut code = ArrayVec::new();
    if i < 94 {
        code.push(33 + i as u8);
    } else {
        code.push(33 + ((i - 94) / 94) as u8);
        code.push(33 + ((i - 94) % 94) as u8);
    }
    code
}

fn declare(i: usize, variable: &Variable, out: &mut Vec<u8>) -> Result<(), OutOfMemory>
    requires { i < 8930 }
    ensures { OnOk result (out.new.items ≡ out.old.items ++ declaration i (variable_of variable.now)) }
{
    out.extend_from_slice(b"$var wire 1 ")?;
    out.extend_from_slice(&identifier_code(i))?;
    out.extend_from_slice(b" ")?;
    out.extend_from_slice(variable.name.as_bytes())?;
    out.extend_from_slice(b" $end\n")?;
    Ok(())
}

fn declare_all(variables: &[Variable], out: &mut Vec<u8>) -> Result<(), OutOfMemory>
    requires { length variables.now ≤ 8930 }
    ensures { OnOk result (out.new.items ≡ out.old.items ++ declarations 0 (map variable_of variables.now)) }
{
    for (i, variable) in variables.iter().enumerate() {
        declare(i, variable, out)?;
    }
    Ok(())
}

pub(crate) fn head_text(alloc: Global, variables: &[Variable]) -> Result<Vec<u8>, OutOfMemory>
    requires { length variables.now ≤ 8930 }
    ensures { IfOk result (λ v. v.items ≡ head (map variable_of variables.now)) }
{
    let mut out = Vec::new(alloc);
    out.extend_from_slice(b"$timescale 100 ps $end\n$scope module board $end\n")?;
    declare_all(variables, &mut out)?;
    out.extend_from_slice(b"$upscope $end\n$enddefinitions $end\n")?;
    Ok(out)
}
