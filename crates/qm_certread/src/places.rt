ghost use Rattle.std.specs.Prelude.{◌≡◌, ◌≤◌, ◌<◌, length, drop, OnSome};
ghost use Rattle.qm_model.specs.Plays.{whole_vars};
ghost use Rattle.qm_model.specs.Points.{continuous_vars};
ghost use Rattle.qm_trees.specs.Picks.{universal_count};
ghost use Rattle.qm_certread.specs.Forms.{player_at};

use qm_model::{Player, Problem, Var, is_for_all};

/// The whole variables.
pub fn whole_vars(problem: &Problem) -> &[Var]
    requires { problem.now.wholes ≤ length problem.now.vars }
    ensures { result.now ≡ whole_vars problem.now }
{
    problem.vars.as_slice().split_at(problem.wholes as usize).0
}

/// The variables from this place on.
pub fn later(vars: &[Var], place: usize) -> &[Var]
    requires { place ≤ length vars.now }
    ensures { result.now ≡ drop place vars.now }
{
    vars.split_at(place).1
}

/// How many of the variables are universal.
pub fn universal_count(vars: &[Var]) -> usize
    ensures { result ≡ universal_count vars.now }
{
    let mut count = 0;
    for var in vars {
        if is_for_all(var) {
            count += 1;
        }
    }
    count
}

/// How many continuous variables there are.
pub fn continuous_count(problem: &Problem) -> usize
    requires { problem.now.wholes ≤ length problem.now.vars }
    ensures { result ≡ length (continuous_vars problem.now) }
{
    problem.vars.len() - problem.wholes as usize
}

/// Who sets the next variable; `None` where all whole ones are set.
pub fn player_at(problem: &Problem, depth: usize) -> Option<Player>
    requires { problem.now.wholes ≤ length problem.now.vars }
    ensures player { result ≡ player_at problem.now depth }
    ensures inside { OnSome result (depth < length (whole_vars problem.now)) }
{
    match whole_vars(problem).get(depth) {
        Some(var) => Some(var.player),
        None => None,
    }
}
