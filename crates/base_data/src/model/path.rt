//! A path into a value: the field numbers from the root to a part.

ghost use Rattle.std.specs.Prelude.{◌≡◌, ◌<◌, ◌++◌, ◌∷◌, [], length, slice_index, OnOk, OnErr};
ghost use Rattle.std.specs.Prelude.{IfOk};
ghost use Rattle.base_data.specs.model.PathText.{path_text};

use crate::model::Memory;
use crate::model::list::List;
use crate::text::write_path;
use std::alloc::Global;
use std::marker::Model;

/// A list of field numbers, beginning at the root.
#[derive(Drop)]
pub struct Path {
    steps: Vec<u64>,
}

impl Model for Path {
    ghost use Rattle.std.specs.Prelude.{List, ℕ};

    ghost Value = { List ℕ };

    ghost view = { λ p. p.steps.items };
}

impl Path {
    /// Returns the path to the root.
    pub fn new(alloc: Global) -> Path
        ensures { result ≡ [] }
    {
        Path {
            steps: Vec::new(alloc),
        }
    }

    /// Returns the number of steps.
    pub fn len(&self) -> usize
        ensures { result ≡ length self.now }
    {
        self.steps.len()
    }

    /// Returns step `i`, counted from the root.
    pub fn step(&self, i: usize) -> u64
        requires { i < length self.now }
        ensures { result ≡ slice_index self.now i }
    {
        self.steps[i]
    }

    /// Appends one step. If `push` returns `Memory`, the path is unchanged.
    pub fn push(&mut self, step: u64) -> Result<(), Memory>
        ensures ok { OnOk result (self.new ≡ self.old ++ step ∷ []) }
        ensures err { OnErr result (self.new ≡ self.old) }
    {
        match self.steps.push(step) {
            Ok(()) => Ok(()),
            Err(_) => Err(Memory),
        }
    }

    /// Returns a copy of the path.
    pub fn copied(&self, alloc: Global) -> Result<Path, Memory>
        ensures { IfOk result (λ copy. copy ≡ self.now) }
    {
        let mut copy = Path::new(alloc);
        for i in 0..self.len() {
            copy.push(self.step(i))?;
        }
        Ok(copy)
    }

    /// Returns the path's text: `.` for the root. For another path, the text has `.` and the number
    /// of each step.
    pub fn text(&self, alloc: Global) -> Result<List<u8>, Memory>
        ensures { IfOk result (λ text. text ≡ path_text self.now) }
    {
        let mut text = Vec::new(alloc);
        write_path(&mut text, self)?;
        Ok(List::of(text))
    }
}
