//! The validator's state: the operands of the innermost block and the blocks around.
ghost use Rattle.std.specs.Prelude.{◌≡◌, true, false, None, Some, if◌then◌else◌, ◌++◌, [], ◌∷◌, slice_get, reverse, option_to_list, option_map, option_and_then, OnOk, IfOk, nat_le, ℕ};
ghost use Rattle.wasm_typing.specs.Checking.{opened, parted, ended, labels_of, known as known_form, stay, turn, select as select_form, leaves_any, pop, pop_any, all_have as all_form, same_types, total, is_if as is_if_form};
ghost use Rattle.wasm_typing.specs.Views.{state_of, frame_of, Follows, Becomes, Turns, LabelIs, is_loop_form};

use crate::open::{Frame, Open};
use crate::operands::{
    give_result, give_type, give_types, is_same, joined, take_any, take_result, take_type,
    take_types,
};
use sim_base::OutOfMemory;
use std::alloc::Global;
use std::mem::replace;
use wasm_code::{FuncType, ValType};

/// The greatest number of operands that may stand.
const ROOM: usize = 1024;

/// Known operands of the innermost block, whether any stand below them, and the blocks around, the innermost last.
#[derive(Drop)]
pub struct Checker {
    pub known: Vec<Option<ValType>>,
    pub missing: bool,
    pub around: Vec<Open>,
}

impl Checker {
    /// The body stands open, a block around which nothing stands.
    pub fn new(alloc: Global, returns: Option<ValType>) -> Result<Checker, OutOfMemory>
        ensures { IfOk result (λ c. state_of c ≡ opened (frame_of Frame.Block) (option_to_list returns) [] false []) }
    {
        let mut checker = Checker {
            known: Vec::new(alloc),
            missing: false,
            around: Vec::new(alloc),
        };
        checker.open(alloc, Frame::Block, returns)?;
        Ok(checker)
    }

    /// Whether no more operands stand than may.
    pub fn is_within(&self) -> bool
        ensures { result ≡ nat_le (total (state_of self.now)) 1024 }
    {
        let mut room = ROOM;
        for open in &self.around {
            let count = open.known.len();
            if count > room {
                return false;
            }
            room -= count;
        }
        self.known.len() <= room
    }

    pub fn open(
        &mut self,
        alloc: Global,
        frame: Frame,
        gives: Option<ValType>,
    ) -> Result<(), OutOfMemory>
        ensures { OnOk result (state_of self.new ≡ opened (frame_of frame) (option_to_list gives) (state_of self.old).known self.old.missing (state_of self.old).around) }
    {
        let known = replace(&mut self.known, Vec::new(alloc));
        let missing = replace(&mut self.missing, false);
        self.around.push(Open {
            known,
            missing,
            frame,
            result: gives,
        })?;
        Ok(())
    }

    pub fn open_if(&mut self, alloc: Global, gives: Option<ValType>) -> Result<bool, OutOfMemory>
        ensures { IfOk result (λ yes. Follows yes (option_map (λ rest. opened (frame_of Frame.If) (option_to_list gives) rest self.old.missing (state_of self.old).around) (pop ValType.I32 (state_of self.old).known self.old.missing)) (state_of self.new)) }
    {
        if !take_type(&mut self.known, self.missing, ValType::I32) {
            return Ok(false);
        }
        self.open(alloc, Frame::If, gives)?;
        Ok(true)
    }

    /// The first content of an `if` ends, and its second begins.
    pub fn part(&mut self) -> Result<bool, OutOfMemory>
        ensures { IfOk result (λ yes. Follows yes (parted (state_of self.old).around (state_of self.old).known self.old.missing) (state_of self.new)) }
    {
        match self.around.pop() {
            Some(open) => {
                if !is_if(open.frame) {
                    return Ok(false);
                }
                if !take_result(&mut self.known, self.missing, open.result)
                    || self.known.len() != 0
                {
                    return Ok(false);
                }
                self.missing = false;
                self.around.push(Open {
                    known: open.known,
                    missing: open.missing,
                    frame: Frame::Else,
                    result: open.result,
                })?;
                Ok(true)
            }
            None => Ok(false),
        }
    }

    /// The innermost block ends with its results, and an `if` without `else` has none.
    pub fn end(&mut self) -> Result<bool, OutOfMemory>
        ensures { IfOk result (λ yes. Follows yes (ended (state_of self.old).around (state_of self.old).known self.old.missing) (state_of self.new)) }
    {
        match self.around.pop() {
            Some(open) => {
                if is_if(open.frame) && open.result.is_some() {
                    return Ok(false);
                }
                if !take_result(&mut self.known, self.missing, open.result)
                    || self.known.len() != 0
                {
                    return Ok(false);
                }
                self.known = open.known;
                self.missing = open.missing;
                give_result(&mut self.known, open.result)?;
                Ok(true)
            }
            None => Ok(false),
        }
    }

    /// What a label wants.
    fn label(&self, l: u32) -> Option<Option<ValType>>
        ensures { LabelIs result (slice_get (labels_of (state_of self.now).around) l) }
    {
        let count = self.around.len();
        let l = l as usize;
        if l >= count {
            return None;
        }
        let open = &self.around[count - 1 - l];
        Some(if is_loop(open.frame) {
            None
        } else {
            open.result
        })
    }

    /// Behind a branch any operands stand.
    pub fn forget(&mut self)
        ensures { state_of self.new ≡ record { known = []; missing = true; around = (state_of self.old).around } }
    {
        self.known.clear();
        self.missing = true;
    }

    pub fn branch(&mut self, l: u32) -> bool
        ensures { Becomes result (option_and_then (λ rs. leaves_any rs (state_of self.old).known self.old.missing) (slice_get (labels_of (state_of self.old).around) l)) (state_of self.old) (state_of self.new) }
    {
        match self.label(l) {
            Some(label) => self.leave(label),
            None => false,
        }
    }

    /// Takes a result and leaves the block.
    pub fn leave(&mut self, wanted: Option<ValType>) -> bool
        ensures { Becomes result (leaves_any (option_to_list wanted) (state_of self.old).known self.old.missing) (state_of self.old) (state_of self.new) }
    {
        let stands = take_result(&mut self.known, self.missing, wanted);
        self.forget();
        stands
    }

    pub fn branch_if(&mut self, l: u32) -> Result<bool, OutOfMemory>
        ensures { IfOk result (λ yes. Becomes yes (option_and_then (λ rs. turn (ValType.I32 ∷ rs) rs (state_of self.old).known self.old.missing) (slice_get (labels_of (state_of self.old).around) l)) (state_of self.old) (state_of self.new)) }
    {
        match self.label(l) {
            Some(label) => {
                if !take_type(&mut self.known, self.missing, ValType::I32)
                    || !take_result(&mut self.known, self.missing, label)
                {
                    return Ok(false);
                }
                give_result(&mut self.known, label)?;
                Ok(true)
            }
            None => Ok(false),
        }
    }

    pub fn branch_table(&mut self, labels: &[u32], default: u32) -> bool
        ensures { Becomes result (option_and_then (λ rs. (if all_form (labels_of (state_of self.old).around) labels.now rs then leaves_any (ValType.I32 ∷ rs) (state_of self.old).known self.old.missing else None)) (slice_get (labels_of (state_of self.old).around) default)) (state_of self.old) (state_of self.new) }
    {
        match self.label(default) {
            Some(label) => {
                if !self.all_have(labels, label) {
                    return false;
                }
                if !take_type(&mut self.known, self.missing, ValType::I32) {
                    return false;
                }
                self.leave(label)
            }
            None => false,
        }
    }

    /// Whether each of these labels wants this.
    fn all_have(&self, labels: &[u32], wanted: Option<ValType>) -> bool
        ensures { result ≡ all_form (labels_of (state_of self.now).around) labels.now (option_to_list wanted) }
    {
        for l in labels {
            match self.label(*l) {
                Some(label) => {
                    if !is_same_result(label, wanted) {
                        return false;
                    }
                }
                None => return false,
            }
        }
        true
    }

    pub fn drop_one(&mut self) -> bool
        ensures { Becomes result (option_map (λ rest. record { known = rest; missing = self.old.missing }) (pop_any (state_of self.old).known self.old.missing)) (state_of self.old) (state_of self.new) }
    {
        take_any(&mut self.known, self.missing)
    }

    pub fn select(&mut self) -> Result<bool, OutOfMemory>
        ensures { IfOk result (λ yes. Becomes yes (option_and_then (λ rest. select_form rest self.old.missing) (pop ValType.I32 (state_of self.old).known self.old.missing)) (state_of self.old) (state_of self.new)) }
    {
        if !take_type(&mut self.known, self.missing, ValType::I32) {
            return Ok(false);
        }
        self.select_two()
    }

    fn select_two(&mut self) -> Result<bool, OutOfMemory>
        ensures { IfOk result (λ yes. Becomes yes (select_form (state_of self.old).known self.old.missing) (state_of self.old) (state_of self.new)) }
    {
        let one = match (self.known.pop(), self.known.pop()) {
            (Some(a), Some(b)) => joined(a, b),
            (Some(a), None) => if self.missing { Some(a) } else { None },
            (None, _) => if self.missing { Some(None) } else { None },
        };
        match one {
            Some(operand) => {
                self.known.push(operand)?;
                Ok(true)
            }
            None => Ok(false),
        }
    }

    /// Takes operands, the first one topmost, and gives one.
    pub fn give(&mut self, one: ValType) -> Result<(), OutOfMemory>
        ensures { OnOk result (stay (state_of self.old).around (turn [] (one ∷ []) (state_of self.old).known self.old.missing) ≡ Some (state_of self.new)) }
    {
        give_type(&mut self.known, one)
    }

    pub fn take(&mut self, one: ValType) -> bool
        ensures { Turns result (one ∷ []) [] (state_of self.old) (state_of self.new) }
    {
        take_type(&mut self.known, self.missing, one)
    }

    pub fn one_to(&mut self, one: ValType, gives: ValType) -> Result<bool, OutOfMemory>
        ensures { IfOk result (λ yes. Turns yes (one ∷ []) (gives ∷ []) (state_of self.old) (state_of self.new)) }
    {
        if !take_type(&mut self.known, self.missing, one) {
            return Ok(false);
        }
        give_type(&mut self.known, gives)?;
        Ok(true)
    }

    pub fn two_to(&mut self, one: ValType, gives: ValType) -> Result<bool, OutOfMemory>
        ensures { IfOk result (λ yes. Turns yes (one ∷ one ∷ []) (gives ∷ []) (state_of self.old) (state_of self.new)) }
    {
        if !take_type(&mut self.known, self.missing, one)
            || !take_type(&mut self.known, self.missing, one)
        {
            return Ok(false);
        }
        give_type(&mut self.known, gives)?;
        Ok(true)
    }

    /// Takes a value and the address below it.
    pub fn store(&mut self, value: ValType) -> bool
        ensures { Turns result (value ∷ ValType.I32 ∷ []) [] (state_of self.old) (state_of self.new) }
    {
        take_type(&mut self.known, self.missing, value)
            && take_type(&mut self.known, self.missing, ValType::I32)
    }

    /// Takes two addresses, or an address and a value, and a count of bytes.
    pub fn take_three(&mut self) -> bool
        ensures { Turns result (ValType.I32 ∷ ValType.I32 ∷ ValType.I32 ∷ []) [] (state_of self.old) (state_of self.new) }
    {
        take_type(&mut self.known, self.missing, ValType::I32)
            && take_type(&mut self.known, self.missing, ValType::I32)
            && take_type(&mut self.known, self.missing, ValType::I32)
    }

    pub fn call(&mut self, kind: &FuncType) -> Result<bool, OutOfMemory>
        ensures { IfOk result (λ yes. Turns yes (reverse kind.now.params) (reverse kind.now.results) (state_of self.old) (state_of self.new)) }
    {
        if !take_types(&mut self.known, self.missing, kind.params.as_slice()) {
            return Ok(false);
        }
        give_types(&mut self.known, kind.results.as_slice())?;
        Ok(true)
    }

    pub fn call_indirect(&mut self, kind: &FuncType) -> Result<bool, OutOfMemory>
        ensures { IfOk result (λ yes. Turns yes (ValType.I32 ∷ reverse kind.now.params) (reverse kind.now.results) (state_of self.old) (state_of self.new)) }
    {
        if !take_type(&mut self.known, self.missing, ValType::I32) {
            return Ok(false);
        }
        self.call(kind)
    }
}

fn is_if(frame: Frame) -> bool
    ensures { result ≡ is_if_form (frame_of frame) }
{
    matches!(frame, Frame::If)
}

fn is_loop(frame: Frame) -> bool
    ensures { result ≡ is_loop_form (frame_of frame) }
{
    matches!(frame, Frame::Loop)
}

fn is_same_result(a: Option<ValType>, b: Option<ValType>) -> bool
    ensures { result ≡ same_types (option_to_list a) (option_to_list b) }
{
    match (a, b) {
        (None, None) => true,
        (Some(t), Some(u)) => is_same(t, u),
        _ => false,
    }
}
