//! The text of a `print`.

ghost use Rattle.std.specs.Prelude.{◌≡◌, ◌++◌, [], OnOk};
ghost use Rattle.jl_calculus.specs.Run.{newline};
ghost use Rattle.jl_program.specs.Text.{value_text};
ghost use Rattle.jl_frames.specs.Held.{with_open, with_text, first_value, IsOne};

use crate::frames::Frames;
use jl_model::rows::Row;
use jl_program::tree::Program;
use jl_text::append_value;
use std::alloc::AllocError;

impl<'p> Frames<'p> {
    /// The open text of a `print`.
    pub fn open_text(&self) -> &[u8]
        ensures { result.now ≡ self.now.open_text }
    {
        &self.text.as_slice()[self.text_from as usize..]
    }

    /// Bytes are put behind the open text.
    pub fn push_text(&mut self, bytes: &[u8]) -> Result<(), AllocError>
        ensures { OnOk result (self.new ≡ with_text self.old (self.old.open_text ++ bytes.now)) }
    {
        match self.text.append(bytes) {
            Ok(()) => Ok(()),
            Err(error) => {
                self.flat.clear();
                self.text_from = 0;
                Err(error)
            }
        }
    }

    /// The one open value is put behind the open text, as the text that it has.
    pub fn show(&mut self, program: &Program) -> Result<(), AllocError>
        requires one { IsOne self.old }
        ensures { OnOk result (self.new ≡ with_open (with_text self.old
            (self.old.open_text ++ value_text program.now (first_value self.old.open_values))) []) }
    {
        match append_value(&mut self.text, program, &self.values[self.from as usize]) {
            Ok(()) => {
                self.values.truncate(self.from as usize);
                Ok(())
            }
            Err(error) => {
                self.flat.clear();
                self.text_from = 0;
                Err(error)
            }
        }
    }

    /// The open text is written, and a newline where the flag is true.
    pub fn write(&mut self, out: &mut Row<u8>, line: bool) -> Result<(), AllocError>
        ensures { OnOk result ((out.new ≡ out.old ++ (self.old.open_text ++ newline line)) × (self.new ≡ with_text self.old [])) }
    {
        out.append(self.open_text())?;
        if line {
            out.append(b"\n")?;
        }
        self.text.truncate(self.text_from as usize);
        Ok(())
    }
}
