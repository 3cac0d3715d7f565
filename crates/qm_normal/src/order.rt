ghost use Rattle.std.specs.Prelude.{◌≡◌, ◌≤◌, ◌++◌, IfOk, OnOk, drop, filter, length};
ghost use Rattle.qm_normal.specs.TableSteps.{IsGameOrderOf, IsRolesOf, kept_by};

use crate::roles::Roles;
use qm_io::{List, Memory};
use qm_parse::{Ast, Named};
use std::alloc::Global;

/// The variables of a text in game order: the whole ones first.
#[derive(Drop)]
pub(crate) struct GameOrder {
    names: List<Named>,
    wholes: usize,
}

impl GameOrder {
    /// The whole variables in the order of ORDER, then the continuous ones.
    pub fn of(alloc: Global, ast: &Ast, roles: &Roles) -> Result<GameOrder, Memory>
        requires { IsRolesOf ast.now roles.now }
        ensures { IfOk result (IsGameOrderOf ast.now) }
    {
        let order = ast.order.as_slice();
        let mut names = List::new(alloc);
        add_names(&mut names, roles, order, true)?;
        let wholes = names.len();
        add_names(&mut names, roles, order, false)?;
        Ok(GameOrder { names, wholes })
    }

    /// All of them.
    pub fn names(&self) -> &[Named]
        ensures { result.now ≡ self.now.names }
    {
        self.names.as_slice()
    }

    /// How many are whole.
    pub fn wholes(&self) -> usize
        ensures { result ≡ self.now.wholes }
    {
        self.wholes
    }

    /// Those behind the whole ones.
    pub fn continuous(&self) -> &[Named]
        requires { self.now.wholes ≤ length self.now.names }
        ensures { result.now ≡ drop self.now.wholes self.now.names }
    {
        let names = self.names.as_slice();
        &names[self.wholes..]
    }
}

/// Puts the whole variables of ORDER at the end, or the continuous ones.
fn add_names(
    names: &mut List<Named>,
    roles: &Roles,
    order: &[Named],
    whole: bool,
) -> Result<(), Memory>
    ensures { OnOk result (names.new ≡ names.old ++ filter (λ named. kept_by roles.now whole named.name) order.now) }
{
    for named in order {
        if is_kept(roles, whole, named.name) {
            names.push(*named)?;
        }
    }
    Ok(())
}

fn is_kept(roles: &Roles, whole: bool, name: u32) -> bool
    ensures { result ≡ kept_by roles.now whole name }
{
    if whole {
        roles.is_whole(name)
    } else {
        !roles.is_whole(name)
    }
}
