ghost use Rattle.std.specs.Prelude.{◌≡◌, ◌<◌, length, replicate, IfOk, slice_index, slice_set};
ghost use Rattle.cove_mem.specs.Frames.{frame, zero_frame, with_word};

use cove_base::{NoMemory, Page};
use std::alloc::Global;
use std::marker::Model;

/// Words of a page.
const WORDS: usize = 512;

/// The frames of a board's pages.
#[derive(Drop)]
pub struct Memory {
    frames: Vec<[u64; WORDS]>,
}

impl Model for Memory {
    ghost use Rattle.std.specs.Prelude.{List, ℕ};

    ghost Value = { List (List ℕ) };

    ghost view = { λ a. a.frames.items };
}

impl Memory {
    /// As many frames, of zeros.
    pub fn new(alloc: Global, pages: u32) -> Result<Self, NoMemory>
        ensures { IfOk result (λ memory. memory ≡ replicate pages zero_frame) }
    {
        Ok(Memory {
            frames: frames_of_zeros(alloc, pages)?,
        })
    }

    /// A word of a page.
    pub fn load(&self, page: Page, word: u16) -> u64
        requires page { page.0 < length self.now }
        requires word { word < 512 }
        ensures { result ≡ slice_index (frame self.now page.0) word }
    {
        self.frames[page.0 as usize][word as usize]
    }

    /// Stores a word of a page.
    pub fn store(&mut self, page: Page, word: u16, value: u64)
        requires page { page.0 < length self.old }
        requires word { word < 512 }
        ensures { self.new ≡ with_word self.old page.0 word value }
    {
        self.frames[page.0 as usize][word as usize] = value;
    }

    /// Fills a page with zeros.
    pub fn zero(&mut self, page: Page)
        requires { page.0 < length self.old }
        ensures { self.new ≡ slice_set self.old page.0 zero_frame }
    {
        self.frames[page.0 as usize] = frame_of_zeros();
    }

    /// Copies the words of a page to a page.
    pub fn copy(&mut self, from: Page, to: Page)
        requires from { from.0 < length self.old }
        requires to { to.0 < length self.old }
        ensures { self.new ≡ slice_set self.old to.0 (frame self.old from.0) }
    {
        self.frames[to.0 as usize] = self.frames[from.0 as usize];
    }

    /// The words of a page, in order.
    pub fn page(&self, page: Page) -> &[u64]
        requires { page.0 < length self.now }
        ensures words { result.now ≡ frame self.now page.0 }
        ensures length { length result.now ≡ 512 }
    {
        &self.frames[page.0 as usize]
    }
}

fn frames_of_zeros(alloc: Global, pages: u32) -> Result<Vec<[u64; WORDS]>, NoMemory>
    ensures { IfOk result (λ frames. frames.items ≡ replicate pages zero_frame) }
{
    let one = [frame_of_zeros()];
    let mut frames = Vec::with_capacity(alloc, pages as usize)?;
    for _ in 0..pages {
        frames.extend_from_slice(&one)?;
    }
    Ok(frames)
}

fn frame_of_zeros() -> [u64; WORDS]
    ensures { result ≡ zero_frame }
{
    [0; WORDS]
}
