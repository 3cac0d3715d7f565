ghost use Rattle.qm_normal.specs.Answers.{Gives};
ghost use Rattle.qm_normal.specs.Normal.{normal_form};
ghost use Rattle.qm_normal.specs.Trees.{IsTreeInOrder};

use crate::ends::Ends;
use crate::fault::NormalFault;
use crate::laws::normal_forms_are_sound;
use crate::limits::variables_fault;
use crate::problem::problem;
use crate::roles::Roles;
use crate::scope::scope_fault;
use qm_model::Game;
use qm_parse::Ast;
use std::alloc::Global;

/// The game that a text with this tree states, or the first reason why it states none. A tree that is parsed of a
/// text is in order.
pub fn normal(alloc: Global, ast: &Ast) -> Result<Game, NormalFault>
    requires in_order { IsTreeInOrder ast.now }
    ensures { Gives result (normal_form ast.now) }
{
    normal_forms_are_sound();
    let roles = Roles::of(alloc, ast)?;
    let ends = Ends::of(alloc, ast)?;
    if let Some(fault) = scope_fault(alloc, ast, &roles)? {
        return Err(fault);
    }
    if let Some(fault) = variables_fault(alloc, ast, &roles, &ends)? {
        return Err(fault);
    }
    let problem = problem(alloc, ast, &roles, &ends)?;
    Ok(Game::new(problem))
}
