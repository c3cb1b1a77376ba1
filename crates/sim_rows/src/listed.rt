//! The same run by the call that web pages make: words and files as one list, and what the ports hold as blocks.
use crate::ended::{Ended, REPORT_ROOM, SERIAL_ROOM};
use crate::row::Row;
use crate::stage::StagedFile;
use sim_base::Port;
use std::alloc::{AllocError, Global};
use web_call::{NO_LIST, TOO_LONG, call};

/// Bytes that are put together piece by piece. If memory runs out for one of them, the whole is none.
#[derive(Drop)]
struct Bytes {
    bytes: Vec<u8>,
    has_run_out: bool,
}

impl Bytes {
    fn new(alloc: Global) -> Bytes {
        Bytes {
            bytes: Vec::new(alloc),
            has_run_out: false,
        }
    }

    fn add(&mut self, bytes: &[u8]) {
        if self.bytes.extend_from_slice(bytes).is_err() {
            self.has_run_out = true;
        }
    }

    fn add_block(&mut self, bytes: &[u8]) {
        self.add(&(bytes.len() as u64).to_le_bytes());
        self.add(bytes);
    }

    fn whole(&self) -> Result<&[u8], AllocError> {
        if self.has_run_out {
            Err(AllocError)
        } else {
            Ok(self.bytes.as_slice())
        }
    }
}

fn add_words(list: &mut Bytes, words: &[String]) {
    for word in words {
        list.add(b"w");
        list.add_block(word.as_bytes());
    }
}

fn add_files(list: &mut Bytes, files: &[StagedFile]) {
    for file in files {
        list.add(b"f");
        list.add_block(file.name.as_bytes());
        list.add_block(file.bytes.as_slice());
    }
}

fn add_ports(blocks: &mut Bytes, ended: &Ended) {
    blocks.add_block(ended.written(Port::Serial));
    for port in [Port::Wave, Port::Report] {
        blocks.add_block(ended.name(port));
        blocks.add_block(ended.written(port));
    }
    blocks.add_block(ended.written(Port::Complaint));
}

fn answer(alloc: Global, list: &[u8], wave: u32, out: &mut [u8]) -> u32 {
    call(alloc, list, SERIAL_ROOM, wave, REPORT_ROOM, out)
}

/// Whether calls with a list end with this status and these blocks, with 102 where the answer lacks room for a byte, and with
/// 100 where the list lacks one.
fn is_answered(
    alloc: Global,
    list: &[u8],
    wave: u32,
    status: u8,
    blocks: &[u8],
    out: &mut [u8],
) -> bool {
    if answer(alloc, list, wave, out) != u32::from(status) || &*out != blocks {
        return false;
    }
    let less = blocks.len().saturating_sub(1).min(out.len());
    let (short, _) = out.split_at_mut(less);
    if answer(alloc, list, wave, short) != TOO_LONG {
        return false;
    }
    let cut = &list[..list.len().saturating_sub(1)];
    answer(alloc, cut, wave, short) == NO_LIST
}

/// The same with room for the answer.
fn is_given(
    alloc: Global,
    list: &[u8],
    wave: u32,
    status: u8,
    blocks: &[u8],
) -> Result<bool, AllocError> {
    let mut out = vec![in alloc; 0u8; blocks.len()]?;
    let same = is_answered(alloc, list, wave, status, blocks, out.as_mut_slice());
    Ok(same)
}

/// Whether calls with a list end as the run did.
fn ends_same(alloc: Global, list: &[u8], wave: u32, ended: &Ended) -> Result<bool, AllocError> {
    let mut blocks = Bytes::new(alloc);
    add_ports(&mut blocks, ended);
    is_given(alloc, list, wave, ended.status(), blocks.whole()?)
}

/// Whether the call ends as the run did: with the same status and ports; with 102 where its answer
/// lacks room for a byte; and with 100 where its list lacks one.
pub fn is_same(
    alloc: Global,
    row: &Row,
    files: &[StagedFile],
    ended: &Ended,
) -> Result<bool, AllocError> {
    let mut list = Bytes::new(alloc);
    add_words(&mut list, row.words.as_slice());
    add_files(&mut list, files);
    ends_same(alloc, list.whole()?, row.room, ended)
}
