//! Classes whose methods are run.
//! `class` and the hexadecimal bytes of a class file add it to a world, and tell its methods, a line each, and then `end`; `run`, the place of a method, a number of steps, arguments, a bar and answers tell what its code shows; `more` and further answers what it shows then.

use anyhow::Result;
use dj_class::{ClassFile, Method};
use dj_code::{CodeFault, Typed, read_code_of};
use dj_machine::show_code;
use dj_names::Items;
use dj_values::Show;
use dj_world::World;
use run_lines::{Asked, DescriptorText, ShowText, add_filled, class_of_digits};
use std::alloc::Global;
use std::io::Write;

/// The world of some classes and the core classes, the code of their methods, in order, and the run that is asked for.
#[derive(Drop)]
pub struct Codes {
    world: World,
    codes: Vec<Option<Typed>>,
    asked: Asked,
}

/// The code of a method, where it has code that is right. A run reads no frames, so it has none.
fn code_of(alloc: Global, class: &ClassFile, method: &Method) -> Result<Option<Typed>> {
    if method.code.is_none() {
        return Ok(None);
    }
    match read_code_of(alloc, class, method) {
        Ok(code) => Ok(Some(Typed {
            code,
            frames: Items::new(alloc),
        })),
        Err(CodeFault::BadCode { .. }) => Ok(None),
        Err(CodeFault::Memory(error)) => Err(error.into()),
    }
}

impl Codes {
    /// No class, and a run that goes nowhere.
    pub fn new(alloc: Global) -> Codes {
        Codes {
            world: World::new(alloc),
            codes: Vec::new(alloc),
            asked: Asked::new(alloc),
        }
    }

    /// The code of the method that is asked for.
    fn code(&self) -> Option<&Typed> {
        let code = self.codes.as_slice().get(self.asked.place)?;
        code.as_ref()
    }

    /// What the run that is asked for shows, of this code.
    fn show_of(&self, alloc: Global, typed: &Typed) -> Result<Show> {
        let arguments = self.asked.arguments.as_slice();
        let answers = self.asked.answers.as_slice();
        let bound = self.asked.bound;
        Ok(show_code(
            alloc,
            self.world.headers(),
            typed,
            arguments,
            answers,
            bound,
        )?)
    }

    /// Tells what the run that is asked for shows.
    fn put_show<W: Write>(&self, alloc: Global, out: &mut W) -> Result<()> {
        match self.code() {
            Some(typed) => writeln!(out, "{}", ShowText(&self.show_of(alloc, typed)?))?,
            None => writeln!(out, "absent")?,
        }
        Ok(())
    }

    /// Adds the methods of a class, and tells their names and descriptors.
    fn add_methods<W: Write>(
        &mut self,
        alloc: Global,
        out: &mut W,
        class: &ClassFile,
    ) -> Result<()> {
        for method in class.methods.as_slice() {
            let descriptor = DescriptorText(&method.descriptor);
            writeln!(out, "{} {descriptor}", method.name)?;
            let code = code_of(alloc, class, method)?;
            self.codes.push(code)?;
        }
        Ok(())
    }

    /// Adds the class of these hexadecimal bytes.
    fn add_class<W: Write>(&mut self, alloc: Global, out: &mut W, digits: &str) -> Result<()> {
        if let Some(class) = class_of_digits(alloc, digits)? {
            let _ = add_filled(&mut self.world, &class)?;
            self.add_methods(alloc, out, &class)?;
        }
        writeln!(out, "end")?;
        Ok(())
    }

    /// Answers a line.
    pub fn put_answer<W: Write>(&mut self, alloc: Global, out: &mut W, line: &str) -> Result<()> {
        match line.split_once(' ') {
            Some(("class", digits)) => return self.add_class(alloc, out, digits),
            Some(("run", words)) => self.asked.read(alloc, words)?,
            Some(("more", answers)) => self.asked.add(alloc, answers)?,
            _ => return Ok(writeln!(out, "unknown")?),
        }
        self.put_show(alloc, out)
    }
}
