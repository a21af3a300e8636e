use crate::tvms::Tvms;
use cove_base::Bytes;
use cove_imsic::Files;
use cove_mem::Memory;

/// The state of a monitor without its words: the frames of the pages, every TVM, the interrupt files, the harts for which a
/// kick stands, one bit each, the key of evidence, and the size of the board.
#[derive(Drop)]
pub struct Ground {
    pub memory: Memory,
    pub tvms: Tvms,
    pub files: Files,
    pub kicked: u8,
    pub key: Bytes,
    pub pages: u32,
    pub harts: u8,
    pub filecount: u8,
}
