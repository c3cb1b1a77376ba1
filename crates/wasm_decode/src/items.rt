//! The items of the other sections.
use crate::expressions::read_expr;
use crate::module::{DataSegment, ElementSegment, Export, GlobalDef};
use sim_base::Fault;
use sim_refusals::numbers::WASM_TYPE;
use std::alloc::Global;
use std::mem::drop;
use wasm_binary::{Decode, Reader, byte_list, index, judged, list, read_name, tag};
use wasm_code::read_global_type;

impl Decode for GlobalDef {
    ghost use Rattle.wasm_decode.specs.ItemText.{global};

    ghost form = { global };

    fn decode(alloc: Global, reader: &mut Reader) -> Result<GlobalDef, Fault> {
        match read_global_type(reader) {
            Ok(kind) => match read_expr(alloc, reader) {
                Ok(init) => Ok(GlobalDef { kind, init }),
                Err(fault) => Err(fault),
            },
            Err(fault) => Err(fault),
        }
    }
}

impl Decode for Export {
    ghost use Rattle.wasm_decode.specs.ItemText.{export};

    ghost form = { export };

    fn decode(alloc: Global, reader: &mut Reader) -> Result<Export, Fault> {
        let name = read_name(alloc, reader)?;
        let kind = judged(reader)?;
        let index = index(reader)?;
        Ok(Export { name, kind, index })
    }
}

impl Decode for ElementSegment {
    ghost use Rattle.wasm_decode.specs.ItemText.{element};

    ghost form = { element };

    fn decode(alloc: Global, reader: &mut Reader) -> Result<ElementSegment, Fault> {
        tag(reader, 0x00, WASM_TYPE)?;
        let offset = read_expr(alloc, reader)?;
        match list(alloc, reader) {
            Ok(functions) => Ok(ElementSegment { offset, functions }),
            Err(fault) => {
                drop(offset);
                Err(fault)
            }
        }
    }
}

impl Decode for DataSegment {
    ghost use Rattle.wasm_decode.specs.ItemText.{segment};

    ghost form = { segment };

    fn decode(alloc: Global, reader: &mut Reader) -> Result<DataSegment, Fault> {
        tag(reader, 0x00, WASM_TYPE)?;
        let offset = read_expr(alloc, reader)?;
        match byte_list(alloc, reader) {
            Ok(bytes) => Ok(DataSegment { offset, bytes }),
            Err(fault) => {
                drop(offset);
                Err(fault)
            }
        }
    }
}
