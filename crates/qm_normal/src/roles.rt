ghost use Rattle.std.specs.Prelude.{◌≡◌, IfOk};
ghost use Rattle.qm_normal.specs.TableSteps.{IsRolesOf, binary_by, universal_by, whole_by};

use qm_io::Memory;
use qm_parse::{Ast, Marks};
use std::alloc::Global;

/// Which names stand in GENERALS, in BINARIES and in ALL.
#[derive(Drop)]
pub(crate) struct Roles {
    generals: Marks,
    binaries: Marks,
    universal: Marks,
}

impl Roles {
    /// The roles that a text gives its names.
    pub fn of(alloc: Global, ast: &Ast) -> Result<Roles, Memory>
        ensures { IfOk result (IsRolesOf ast.now) }
    {
        Ok(Roles {
            generals: Marks::of(alloc, ast.generals.as_slice())?,
            binaries: Marks::of(alloc, ast.binaries.as_slice())?,
            universal: Marks::of(alloc, ast.universal.as_slice())?,
        })
    }

    /// Whether the variable takes whole values alone.
    pub fn is_whole(&self, name: u32) -> bool
        ensures { result ≡ whole_by self.now name }
    {
        self.generals.has(name) || self.binaries.has(name)
    }

    /// Whether the name stands in BINARIES.
    pub fn is_binary(&self, name: u32) -> bool
        ensures { result ≡ binary_by self.now name }
    {
        self.binaries.has(name)
    }

    /// Whether the universal player sets the variable.
    pub fn is_universal(&self, name: u32) -> bool
        ensures { result ≡ universal_by self.now name }
    {
        self.universal.has(name)
    }
}
