ghost use Rattle.std.specs.Prelude.{◌≡◌, ℕ, ◌<◌, ◌||◌, ◌==◌, length, not, [], IfOk, OnOk};
ghost use Rattle.qm_parse.specs.Checks.{first_such};
ghost use Rattle.qm_parse.specs.Marks.{IsMarksOf, is_marked};

use crate::ast::Named;
use qm_io::{List, Memory};
use std::alloc::Global;

/// Marked numbers of names: a flag each, and a number beyond the flags is not marked.
#[derive(Debug, Drop)]
pub struct Marks {
    flags: List<bool>,
}

impl Marks {
    /// No number is marked.
    pub fn new(alloc: Global) -> Marks
        ensures { IsMarksOf [] result }
    {
        Marks {
            flags: List::new(alloc),
        }
    }

    /// The numbers of the names in a list.
    pub fn of(alloc: Global, list: &[Named]) -> Result<Marks, Memory>
        ensures { IfOk result (IsMarksOf list.now) }
    {
        let mut marks = Marks::new(alloc);
        for named in list {
            marks.mark(named.name)?;
        }
        Ok(marks)
    }

    pub fn has(&self, name: u32) -> bool
        ensures { result ≡ is_marked self.now name }
    {
        let at = name as usize;
        let flags = self.flags.as_slice();
        at < flags.len() && flags[at]
    }

    /// Marks one number more.
    pub fn mark(&mut self, name: u32) -> Result<(), Memory>
        ensures { OnOk result ((other : ℕ) → is_marked self.new other ≡ (is_marked self.old other || (name == other))) }
    {
        self.reach(name)?;
        self.flags.set(name as usize, true);
        Ok(())
    }

    /// Gives the number a flag, where it has none.
    fn reach(&mut self, name: u32) -> Result<(), Memory>
        ensures reached { OnOk result (name < length self.new.flags) }
        ensures same { OnOk result ((other : ℕ) → is_marked self.new other ≡ is_marked self.old other) }
    {
        while self.flags.len() <= name as usize {
            self.flags.push(false)?;
        }
        Ok(())
    }

    /// The first of a list whose number is marked.
    pub fn first_in(&self, list: &[Named]) -> Option<Named>
        ensures { result ≡ first_such (λ named. is_marked self.now named.name) list.now }
    {
        for named in list {
            if self.has(named.name) {
                return Some(*named);
            }
        }
        None
    }

    /// The first of a list whose number isn't marked.
    pub fn first_missing(&self, list: &[Named]) -> Option<Named>
        ensures { result ≡ first_such (λ named. not (is_marked self.now named.name)) list.now }
    {
        for named in list {
            if !self.has(named.name) {
                return Some(*named);
            }
        }
        None
    }
}
