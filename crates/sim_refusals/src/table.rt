//! The table of names.
ghost use Rattle.std.specs.Prelude.{◌≡◌};
ghost use Rattle.sim_refusals.specs.Refusals.{name_of, name_in, files, requests};

use crate::numbers::{
    ATTR_VALUE, BOARD_COUNT, BOARD_LIMIT, CHIP_DISPLAY, CHIP_INIT, CHIP_LIMIT, CHIP_MISSING,
    CHIP_PIN_NAME, CHIP_SHAPE, CHIP_TEXT, DIAGRAM_LIMIT, DIAGRAM_SHAPE, FILE_TOO_LONG, HEX_DIGIT,
    HEX_LENGTH, HEX_NO_END, HEX_RANGE, HEX_START, HEX_SUM, HEX_TYPE, ID_REPEATED, IMPORT_TYPE,
    IMPORT_UNKNOWN, JSON_TEXT, PIN_UNKNOWN, REQUEST_LONG, REQUEST_NUMBER, REQUEST_PART,
    REQUEST_PAST, REQUEST_PIN, REQUEST_UNKNOWN, REQUEST_VALUE, REQUEST_WAVE, REQUEST_WORDS,
    SCRIPT_LIMIT, SCRIPT_LINE, SCRIPT_ORDER, SCRIPT_PART, TOML_SHAPE, TOML_TEXT, TWIN_DIFFERS,
    TYPE_UNKNOWN, VALID_CONST, VALID_EXPORT, VALID_FORM, VALID_INDEX, VALID_LIMIT, VALID_SEGMENT,
    VALID_TYPE, WASM_COUNT, WASM_CUT, WASM_LEB, WASM_LIMIT, WASM_MAGIC, WASM_OPCODE, WASM_SECTION,
    WASM_TYPE, WASM_UTF8, WAVE_END, WAVE_HEAD, WAVE_LINE, WAVE_NAME, WAVE_TIME, WAVE_VAR,
};

/// The name of a refusal of a file.
fn file_refusal(number: u8) -> &'static str
    ensures { result.now ≡ name_in number files }
{
    match number {
        FILE_TOO_LONG => "FileTooLong",
        HEX_START => "HexStart",
        HEX_DIGIT => "HexDigit",
        HEX_LENGTH => "HexLength",
        HEX_SUM => "HexSum",
        HEX_TYPE => "HexType",
        HEX_RANGE => "HexRange",
        HEX_NO_END => "HexNoEnd",
        TOML_TEXT => "TomlText",
        TOML_SHAPE => "TomlShape",
        JSON_TEXT => "JsonText",
        DIAGRAM_SHAPE => "DiagramShape",
        TYPE_UNKNOWN => "TypeUnknown",
        ID_REPEATED => "IdRepeated",
        PIN_UNKNOWN => "PinUnknown",
        BOARD_COUNT => "BoardCount",
        CHIP_MISSING => "ChipMissing",
        ATTR_VALUE => "AttrValue",
        DIAGRAM_LIMIT => "DiagramLimit",
        BOARD_LIMIT => "BoardLimit",
        CHIP_TEXT => "ChipText",
        CHIP_SHAPE => "ChipShape",
        CHIP_PIN_NAME => "ChipPinName",
        CHIP_LIMIT => "ChipLimit",
        CHIP_DISPLAY => "ChipDisplay",
        WASM_MAGIC => "WasmMagic",
        WASM_CUT => "WasmCut",
        WASM_LEB => "WasmLeb",
        WASM_SECTION => "WasmSection",
        WASM_TYPE => "WasmType",
        WASM_OPCODE => "WasmOpcode",
        WASM_UTF8 => "WasmUtf8",
        WASM_COUNT => "WasmCount",
        WASM_LIMIT => "WasmLimit",
        VALID_INDEX => "ValidIndex",
        VALID_TYPE => "ValidType",
        VALID_CONST => "ValidConst",
        VALID_EXPORT => "ValidExport",
        VALID_FORM => "ValidForm",
        IMPORT_UNKNOWN => "ImportUnknown",
        IMPORT_TYPE => "ImportType",
        CHIP_INIT => "ChipInit",
        VALID_SEGMENT => "ValidSegment",
        VALID_LIMIT => "ValidLimit",
        SCRIPT_LINE => "ScriptLine",
        SCRIPT_ORDER => "ScriptOrder",
        SCRIPT_LIMIT => "ScriptLimit",
        SCRIPT_PART => "ScriptPart",
        WAVE_HEAD => "WaveHead",
        WAVE_LINE => "WaveLine",
        WAVE_TIME => "WaveTime",
        WAVE_NAME => "WaveName",
        WAVE_END => "WaveEnd",
        TWIN_DIFFERS => "TwinDiffers",
        WAVE_VAR => "WaveVar",
        _ => "",
    }
}

/// The name of a refusal of a request.
fn request_refusal(number: u8) -> &'static str
    ensures { result.now ≡ name_in number requests }
{
    match number {
        REQUEST_UNKNOWN => "RequestUnknown",
        REQUEST_WORDS => "RequestWords",
        REQUEST_NUMBER => "RequestNumber",
        REQUEST_PIN => "RequestPin",
        REQUEST_PART => "RequestPart",
        REQUEST_VALUE => "RequestValue",
        REQUEST_PAST => "RequestPast",
        REQUEST_LONG => "RequestLong",
        REQUEST_WAVE => "RequestWave",
        _ => "",
    }
}

/// The name of a refusal's number, as the line of a complaint or the answer to a request has it; empty
/// where no refusal has the number.
pub fn refusal_name(number: u8) -> &'static str
    ensures { result.now ≡ name_of number }
{
    if number < 100 {
        file_refusal(number)
    } else {
        request_refusal(number)
    }
}
