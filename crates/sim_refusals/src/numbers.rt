//! The number of each refusal under its name (docs/REFUSALS.md lists when each comes).

pub const FILE_TOO_LONG: u8 = 10;

pub const HEX_START: u8 = 20;

pub const HEX_DIGIT: u8 = 21;

pub const HEX_LENGTH: u8 = 22;

pub const HEX_SUM: u8 = 23;

pub const HEX_TYPE: u8 = 24;

pub const HEX_RANGE: u8 = 25;

pub const HEX_NO_END: u8 = 26;

pub const TOML_TEXT: u8 = 30;

pub const TOML_SHAPE: u8 = 31;

pub const JSON_TEXT: u8 = 40;

pub const DIAGRAM_SHAPE: u8 = 41;

pub const TYPE_UNKNOWN: u8 = 42;

pub const ID_REPEATED: u8 = 43;

pub const PIN_UNKNOWN: u8 = 44;

pub const BOARD_COUNT: u8 = 45;

pub const CHIP_MISSING: u8 = 46;

pub const ATTR_VALUE: u8 = 47;

pub const DIAGRAM_LIMIT: u8 = 48;

pub const BOARD_LIMIT: u8 = 49;

pub const CHIP_TEXT: u8 = 50;

pub const CHIP_SHAPE: u8 = 51;

pub const CHIP_PIN_NAME: u8 = 52;

pub const CHIP_LIMIT: u8 = 53;

pub const CHIP_DISPLAY: u8 = 54;

pub const WASM_MAGIC: u8 = 60;

pub const WASM_CUT: u8 = 61;

pub const WASM_LEB: u8 = 62;

pub const WASM_SECTION: u8 = 63;

pub const WASM_TYPE: u8 = 64;

pub const WASM_OPCODE: u8 = 65;

pub const WASM_UTF8: u8 = 67;

pub const WASM_COUNT: u8 = 68;

pub const WASM_LIMIT: u8 = 69;

pub const VALID_INDEX: u8 = 70;

pub const VALID_TYPE: u8 = 71;

pub const VALID_CONST: u8 = 72;

pub const VALID_EXPORT: u8 = 73;

pub const VALID_FORM: u8 = 74;

pub const IMPORT_UNKNOWN: u8 = 75;

pub const IMPORT_TYPE: u8 = 76;

pub const CHIP_INIT: u8 = 77;

pub const VALID_SEGMENT: u8 = 78;

pub const VALID_LIMIT: u8 = 79;

pub const SCRIPT_LINE: u8 = 80;

pub const SCRIPT_ORDER: u8 = 81;

pub const SCRIPT_LIMIT: u8 = 82;

pub const SCRIPT_PART: u8 = 83;

pub const WAVE_HEAD: u8 = 90;

pub const WAVE_LINE: u8 = 91;

pub const WAVE_TIME: u8 = 92;

pub const WAVE_NAME: u8 = 93;

pub const WAVE_END: u8 = 94;

pub const TWIN_DIFFERS: u8 = 95;

pub const WAVE_VAR: u8 = 96;

pub const REQUEST_UNKNOWN: u8 = 100;

pub const REQUEST_WORDS: u8 = 101;

pub const REQUEST_NUMBER: u8 = 102;

pub const REQUEST_PIN: u8 = 103;

pub const REQUEST_PART: u8 = 104;

pub const REQUEST_VALUE: u8 = 105;

pub const REQUEST_PAST: u8 = 106;

pub const REQUEST_LONG: u8 = 107;

pub const REQUEST_WAVE: u8 = 108;
