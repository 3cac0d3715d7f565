ghost use Rattle.std.specs.Prelude.{◌≡◌, ◌<◌, ◌^◌, ◌∷◌, [], IfErr, IfOk, OnOk, length};
ghost use Rattle.qm_model.specs.declared.game.Problem.{Problem};
ghost use Rattle.qm_trees.specs.Verdicts.{Fine, ◌then◌};
ghost use Rattle.qm_certfile.specs.Styles.{first_style};
ghost use Rattle.qm_certread.specs.SaidSteps.{claim_node};
ghost use Rattle.qm_certread.specs.ReadSteps.{IsIn, IsMissing};
ghost use Rattle.qm_certread.specs.Tasks.{Claimed, follow};
ghost use Rattle.qm_certread.specs.FirstFault.{first_fault};
ghost use Rattle.qm_check.specs.Texts.{Claims, IsAnswered, IsFault, TakesClaim, TakesNext, verdict_at};
ghost use Rattle.qm_check.specs.Walks.{IsWalk, tasks_of};

use crate::beginning::begin;
use crate::fault::rule_of;
use crate::going::next_due;
use crate::line::take_line;
use crate::text_fault::{TextFault, fault_at};
use crate::walk::Walk;
use qm_certread::{Claim, Cursor, claim_said, next_line};
use qm_frac::{Frac, Leaves};
use qm_model::Game;
use qm_trees::Rule;
use std::alloc::Global;

/// Takes the next line, and tells whether there was one.
fn take_next(
    alloc: Global,
    game: &Game,
    walk: &mut Walk,
    sums: &mut [Result<Frac, Leaves>],
    text: &[u8],
    cursor: &mut Cursor,
) -> Result<bool, TextFault>
    requires walk { IsWalk game.now walk.old }
    requires sums { length sums.old ≡ length game.now.vars }
    requires place { IsIn text.now cursor.old }
    ensures some { IfOk result (TakesNext game.now text.now walk.old walk.new cursor.old cursor.new) }
    ensures err { IfErr result (IsFault (verdict_at game.now (tasks_of walk.old) text.now cursor.old)) }
{
    let here = *cursor;
    match next_line(text, cursor) {
        Ok(line) => match take_line(alloc, game, walk, sums, line) {
            Ok(()) => Ok(true),
            Err(fault) => Err(fault_at(fault, here.line)),
        },
        Err(_) => {
            *cursor = here;
            Ok(false)
        }
    }
}

/// Takes the lines one after the other, until none is left.
fn take_lines(
    alloc: Global,
    game: &Game,
    walk: &mut Walk,
    sums: &mut [Result<Frac, Leaves>],
    text: &[u8],
    cursor: &mut Cursor,
) -> Result<(), TextFault>
    requires walk { IsWalk game.now walk.old }
    requires sums { length sums.old ≡ length game.now.vars }
    requires place { IsIn text.now cursor.old }
    ensures place { OnOk result (IsIn text.now cursor.new) }
    ensures walk { OnOk result (IsWalk game.now walk.new) }
    ensures none { OnOk result (IsMissing text.now cursor.new) }
    ensures same { OnOk result (verdict_at game.now (tasks_of walk.old) text.now cursor.old ≡ verdict_at game.now (tasks_of walk.new) text.now cursor.new) }
    ensures err { IfErr result (IsFault (verdict_at game.now (tasks_of walk.old) text.now cursor.old)) }
{
    'lines: loop {
        match take_next(alloc, game, walk, sums, text, cursor) {
            Ok(true) => {}
            Ok(false) => return Ok(()),
            Err(fault) => return Err(fault),
        }
    }
}

/// Takes the first line.
fn take_claim(text: &[u8], cursor: &mut Cursor) -> Result<Claim, TextFault>
    requires { IsIn text.now cursor.old }
    ensures ok { IfOk result (TakesClaim text.now cursor.old cursor.new) }
    ensures err { IfErr result (λ e. (P : Problem) → IsFault (verdict_at P (Claimed ∷ []) text.now cursor.old) e) }
{
    let number = cursor.line;
    match next_line(text, cursor) {
        Ok(line) => match claim_said(line) {
            Ok(claim) => Ok(claim),
            Err(misread) => Err(TextFault::Broken(number, rule_of(misread))),
        },
        Err(_) => Err(TextFault::Broken(number, Rule::Text)),
    }
}

/// That nothing more is due, where no line is left, and that nothing stands there.
fn end(game: &Game, walk: &mut Walk, text: &[u8], cursor: Cursor) -> Result<(), TextFault>
    requires walk { IsWalk game.now walk.old }
    requires place { IsIn text.now cursor }
    requires none { IsMissing text.now cursor }
    ensures { IsAnswered (verdict_at game.now (tasks_of walk.old) text.now cursor) result }
{
    match next_due(game.problem(), walk) {
        Some(_) => Err(TextFault::Broken(cursor.line, Rule::Text)),
        None => {
            if cursor.at == text.len() {
                Ok(())
            } else {
                Err(TextFault::Broken(cursor.line, Rule::Text))
            }
        }
    }
}

/// That no line behind the first is at fault, where the first one claims this.
fn judge_behind(
    alloc: Global,
    game: &Game,
    claim: &Claim,
    text: &[u8],
    cursor: Cursor,
) -> Result<(), TextFault>
    requires { IsIn text.now cursor }
    ensures { IsAnswered (verdict_at game.now (follow first_style game.now Claimed (claim_node claim.now)) text.now cursor) result }
{
    let Ok(mut walk) = begin(alloc, game, claim) else {
        return Err(TextFault::Memory);
    };
    let zero: Result<Frac, Leaves> = Ok(Frac::whole(0));
    let Ok(mut sums) = vec![in alloc; zero; game.problem().vars.len()] else {
        return Err(TextFault::Memory);
    };
    let mut cursor = cursor;
    match take_lines(
        alloc,
        game,
        &mut walk,
        sums.as_mut_slice(),
        text,
        &mut cursor,
    ) {
        Ok(()) => end(game, &mut walk, text, cursor),
        Err(fault) => Err(fault),
    }
}

/// The claim of a certificate's text, no line of which is at fault; or the first line that is.
pub fn judge(alloc: Global, game: &Game, text: &[u8]) -> Result<Claim, TextFault>
    requires { length text.now < 2 ^ 31 }
    ensures fault { IsAnswered ((Fine 1) then first_fault game.now text.now) result }
    ensures claim { IfOk result (Claims text.now) }
{
    let mut cursor = Cursor { at: 0, line: 1 };
    match take_claim(text, &mut cursor) {
        Ok(claim) => match judge_behind(alloc, game, &claim, text, cursor) {
            Ok(()) => Ok(claim),
            Err(fault) => Err(fault),
        },
        Err(fault) => Err(fault),
    }
}
