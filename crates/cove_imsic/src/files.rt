ghost use Rattle.std.specs.Prelude.{◌≡◌, ◌≢◌, ◌<◌, ◌+◌, ◌*◌, ◌-◌, ◌⊎◌, ℕ, length, Some, IfOk};
ghost use Rattle.cove_base.specs.InterruptFiles.{empty_file};
ghost use Rattle.cove_imsic.specs.FileTables.{HasFile, file_at};

use crate::file_state::FileState;
use cove_base::{HartId, NoMemory};
use std::alloc::Global;
use std::marker::Model;

/// The interrupt files of a board.
#[derive(Drop)]
pub struct Files {
    harts: u8,
    files: u8,
    states: Vec<FileState>,
}

impl Model for Files {
    ghost use Rattle.std.specs.Prelude.{◌≡◌, ◌*◌, length};
    ghost use Rattle.cove_imsic.specs.FileTables.{FileTable};

    ghost Value = { FileTable };

    ghost view = { λ a. record { harts = a.harts; files = a.files; states = a.states.items } };

    ghost invariant = { λ a. length a.states.items ≡ a.harts * a.files };
}

impl Files {
    /// So many empty files for each of so many harts. Takes its memory here and no more later.
    pub fn new(alloc: Global, harts: u8, files: u8) -> Result<Self, NoMemory>
        ensures harts { IfOk result (λ table. table.harts ≡ harts) }
        ensures files { IfOk result (λ table. table.files ≡ files) }
        ensures empty { IfOk result (λ table. (hart file : ℕ) → HasFile table hart file → file_at table hart file ≡ Some empty_file) }
    {
        let count = usize::from(harts) * usize::from(files);
        let mut states = Vec::with_capacity(alloc, count)?;
        for _ in 0..count {
            states.push(FileState::new())?;
        }
        Ok(Files {
            harts,
            files,
            states,
        })
    }

    /// What a hart's file holds.
    pub fn get(&self, h: HartId, file: u8) -> FileState
        requires { HasFile self.now h.0 file }
        ensures { file_at self.now h.0 file ≡ Some result }
    {
        let state = &self.states[self.place(h, file)];
        state.copy()
    }

    /// Writes a hart's file whole.
    pub fn put(&mut self, h: HartId, file: u8, s: FileState)
        requires { HasFile self.old h.0 file }
        ensures file { file_at self.new h.0 file ≡ Some s }

        // Every other file is as it was, and so is the board.
        ensures others { (hart other : ℕ) → HasFile self.old hart other → (hart ≢ h.0) ⊎ (other ≢ file)
            → file_at self.new hart other ≡ file_at self.old hart other }
        ensures harts { self.new.harts ≡ self.old.harts }
        ensures files { self.new.files ≡ self.old.files }
    {
        let place = self.place(h, file);
        self.states[place] = s;
    }

    // The place of a hart's file.
    fn place(&self, h: HartId, file: u8) -> usize
        requires { HasFile self.now h.0 file }
        ensures place { result ≡ h.0 * self.now.files + (file - 1) }
        ensures within { result < length self.now.states }
    {
        usize::from(h.0) * usize::from(self.files) + usize::from(file - 1)
    }
}
