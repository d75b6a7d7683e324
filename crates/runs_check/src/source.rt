//! Classes, and units whose bodies are run.
//! `class` and the hexadecimal bytes of a class file add it to a world, with `end`; `unit` and a text in hexadecimal tell the methods of its unit, a line each, and then `end`; `run`, the place of a method, the most turns of a loop, arguments, a bar and answers tell what its body shows; `more` and further answers what it shows then.

use anyhow::Result;
use dj_read::{ReadUnitFault, read_unit};
use dj_source::show_source;
use dj_syntax::{Body, Unit};
use dj_values::Show;
use dj_world::World;
use run_lines::{Asked, DescriptorText, ShowText, add_filled, class_of_digits};
use std::alloc::Global;
use std::io::Write;

/// A method of a unit.
#[derive(Clone, Copy)]
struct Place {
    unit: usize,
    method: usize,
}

/// The world of some classes and the core classes, some units with their methods, in order, and the run that is asked for.
#[derive(Drop)]
pub struct Bodies {
    world: World,
    units: Vec<Unit>,
    methods: Vec<Place>,
    asked: Asked,
}

impl Bodies {
    /// No class and no unit, and a run that goes nowhere.
    pub fn new(alloc: Global) -> Bodies {
        Bodies {
            world: World::new(alloc),
            units: Vec::new(alloc),
            methods: Vec::new(alloc),
            asked: Asked::new(alloc),
        }
    }

    /// The body of the method that is asked for.
    fn body(&self) -> Option<&Body> {
        let place = self.methods.as_slice().get(self.asked.place)?;
        let unit = self.units.as_slice().get(place.unit)?;
        let method = unit.methods.get(place.method)?;
        method.body.as_ref()
    }

    /// What the run that is asked for shows, of this body.
    fn show_of(&self, alloc: Global, body: &Body) -> Result<Show> {
        let (headers, members) = (self.world.headers(), self.world.member_table());
        let arguments = self.asked.arguments.as_slice();
        let answers = self.asked.answers.as_slice();
        let bound = self.asked.bound;
        Ok(show_source(alloc, headers, members, body, arguments, answers, bound)?)
    }

    /// Tells what the run that is asked for shows.
    fn put_show<W: Write>(&self, alloc: Global, out: &mut W) -> Result<()> {
        match self.body() {
            Some(body) => writeln!(out, "{}", ShowText(&self.show_of(alloc, body)?))?,
            None => writeln!(out, "absent")?,
        }
        Ok(())
    }

    /// Adds the class of these hexadecimal bytes to the world.
    fn add_class<W: Write>(&mut self, alloc: Global, out: &mut W, digits: &str) -> Result<()> {
        if let Some(class) = class_of_digits(alloc, digits)? {
            let _ = add_filled(&mut self.world, &class)?;
        }
        writeln!(out, "end")?;
        Ok(())
    }

    /// Adds the methods of a unit, and tells their names and descriptors.
    fn add_methods<W: Write>(&mut self, out: &mut W, unit: Unit) -> Result<()> {
        let place = self.units.len();
        for (number, method) in unit.methods.as_slice().iter().enumerate() {
            let descriptor = DescriptorText(&method.descriptor);
            writeln!(out, "{} {descriptor}", method.name)?;
            self.methods.push(Place {
                unit: place,
                method: number,
            })?;
        }
        self.units.push(unit)?;
        Ok(())
    }

    /// Adds the unit of a text in hexadecimal.
    fn add_unit<W: Write>(&mut self, alloc: Global, out: &mut W, digits: &str) -> Result<()> {
        let bytes = hex::decode(alloc, digits.as_bytes())?;
        match read_unit(alloc, bytes.as_slice()) {
            Ok(unit) => self.add_methods(out, unit)?,
            Err(ReadUnitFault::Misread) => writeln!(out, "misread")?,
            Err(ReadUnitFault::Deep) => writeln!(out, "deep")?,
            Err(ReadUnitFault::Memory(error)) => return Err(error.into()),
        }
        writeln!(out, "end")?;
        Ok(())
    }

    /// Answers a line.
    pub fn put_answer<W: Write>(&mut self, alloc: Global, out: &mut W, line: &str) -> Result<()> {
        match line.split_once(' ') {
            Some(("class", digits)) => return self.add_class(alloc, out, digits),
            Some(("unit", digits)) => return self.add_unit(alloc, out, digits),
            Some(("run", words)) => self.asked.read(alloc, words)?,
            Some(("more", answers)) => self.asked.add(alloc, answers)?,
            _ => return Ok(writeln!(out, "unknown")?),
        }
        self.put_show(alloc, out)
    }
}
