//! A script and its report, made side by side.

use std::alloc::{AllocError, Global};
use std::fmt::Write;

/// A step of a script, and the line that its report has of it.
pub type Shown = (&'static str, &'static str);

/// A script with the report that it is to have.
#[derive(Drop)]
pub struct Draft {
    pub script: String,
    pub report: String,
    is_deep: bool,
}

impl Draft {
    /// Nothing yet, of a world of the deep split or of the wide one.
    pub fn new(alloc: Global, is_deep: bool) -> Draft {
        Draft {
            script: String::new(alloc),
            report: String::new(alloc),
            is_deep,
        }
    }

    /// A world with these many monitors and four indices, one object, and the thread x.
    pub fn begin(&mut self, monitors: u32) -> Result<(), AllocError> {
        let split = if self.is_deep { " deep" } else { "" };
        writeln!(self.script, "world {monitors} 4{split}\nobject a A5")?;
        self.add("attach x", "attach x index 1")
    }

    /// Adds a step and the line that it prints.
    pub fn add(&mut self, step: &str, line: &str) -> Result<(), AllocError> {
        writeln!(self.script, "{step}")?;
        writeln!(self.report, "{line}")
    }

    /// Adds some steps, each with the line that it prints.
    pub fn add_all(&mut self, steps: &[Shown]) -> Result<(), AllocError> {
        for (step, line) in steps {
            self.add(step, line)?;
        }
        Ok(())
    }

    /// Adds the same steps this often.
    pub fn add_often(&mut self, times: u32, steps: &[Shown]) -> Result<(), AllocError> {
        for _ in 0..times {
            self.add_all(steps)?;
        }
        Ok(())
    }

    /// Adds so many enters by x of the free object, as a thin word counts at most: an exchange of
    /// the free word, and then a store for each further one.
    pub fn enter_thinly(&mut self, times: u32) -> Result<(), AllocError> {
        // The word of the object that x holds once.
        let mut word: u32 = if self.is_deep {
            0x0010_00A5
        } else {
            0x0001_00A5
        };
        for enter in 0..times {
            self.add("begin x enter a", "begin x")?;
            self.script.push_str("go x\ngo x\n")?;
            if enter == 0 {
                writeln!(self.report, "go x load a 000000A5")?;
                writeln!(self.report, "go x won a 000000A5 {word:08X} = Entered")?;
            } else {
                let old = word;
                word = word.wrapping_add(0x100);
                writeln!(self.report, "go x load a {old:08X}")?;
                writeln!(self.report, "go x store a {old:08X} {word:08X} = Entered")?;
            }
        }
        Ok(())
    }

    /// The line of the object behind all steps.
    pub fn end(&mut self, object: &str) -> Result<(), AllocError> {
        writeln!(self.report, "{object}")
    }
}
