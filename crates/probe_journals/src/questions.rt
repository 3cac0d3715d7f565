ghost use Rattle.std.specs.Prelude.{◌≡◌, ◌++◌, ◌∷◌, [], IfOk, IfSome, IsOkAnd, IsTrue, OnOk, Some};
ghost use Rattle.qm_model.specs.Legal.{IsLegal, IsPrefix};
ghost use Rattle.qm_journal.specs.declared.entry.JKind.TheVariants as kind;
ghost use Rattle.qm_journal.specs.Lawful.{IsLawful, IsUniversalTurn};
ghost use Rattle.qm_journal.specs.Positions.{IsParent, position_of};
ghost use Rattle.qm_journal.specs.Questions.{IsNewQuestion};
ghost use Rattle.qm_legal.specs.Queries.{IsCompletion};

use crate::asked::{answer_words, is_completed};
use crate::first_values::{begin_within, is_universal_turn, whole_vars};
use crate::prefixes::{is_game_parent, is_new, prefix_of, with_end};
use crate::set_boxes::box_of_prefix;
use probe_words::NoAnswer;
use qm_game::Game;
use qm_io::{List, Memory};
use qm_journal::{JEntry, JKind, Journal};
use qm_legal::{LegalFault, Legality, NamedPrefix, legal};
use qm_model::is_for_all;
use std::alloc::Global;

/// The prefix with this value behind the game entry of this number, or behind the empty prefix for 0, where it is legal. It
/// is asked, and the answer written, where the universal player sets the variable.
pub fn legal_behind(
    alloc: Global,
    game: &Game,
    root: bool,
    parent: u32,
    value: i64,
    journal: &mut Journal,
    out: &mut String,
) -> Result<Option<List<i64>>, NoAnswer>
    requires lawful { IsLawful game.now journal.old.entries }
    requires root { IsTrue root → IsLegal game.now [] }
    ensures lawful { OnOk result (IsLawful game.now journal.new.entries) }
    ensures legal { IfOk result (λ found. IfSome found (IsLegal game.now)) }
{
    if !is_game_parent(journal.entries(), parent) {
        return Ok(None);
    }
    let before = prefix_of(alloc, game, journal.entries(), parent)?;
    if is_universal_turn(whole_vars(game), before.len()) {
        return ask(alloc, game, parent, before.as_slice(), value, journal, out);
    }
    if !is_known(root, parent) {
        return Ok(None);
    }
    going_on(alloc, game, before.as_slice(), value)
}

// Whether the prefix behind which is asked is known to be legal: that of a game entry is.
fn is_known(root: bool, parent: u32) -> bool
    ensures { IsTrue result → parent ≡ 0 → IsTrue root }
{
    root || parent > 0
}

// A legal prefix goes on with each value of an existential variable.
fn going_on(
    alloc: Global,
    game: &Game,
    before: &[i64],
    value: i64,
) -> Result<Option<List<i64>>, NoAnswer>
    requires legal { IsLegal game.now before.now }
    ensures { IfOk result (λ found. IfSome found (IsLegal game.now)) }
{
    let vars = whole_vars(game);
    if before.len() >= vars.len() || is_for_all(&vars[before.len()]) {
        return Ok(None);
    }
    Ok(Some(with_end(alloc, before, value)?))
}

fn ask(
    alloc: Global,
    game: &Game,
    parent: u32,
    before: &[i64],
    value: i64,
    journal: &mut Journal,
    out: &mut String,
) -> Result<Option<List<i64>>, NoAnswer>
    requires lawful { IsLawful game.now journal.old.entries }
    requires parent { IsParent kind.Game journal.old.entries parent }
    requires before { before.now ≡ (position_of journal.old.entries parent).prefix }
    requires turn { IsUniversalTurn game.now before.now }
    ensures lawful { OnOk result (IsLawful game.now journal.new.entries) }
    ensures legal { IfOk result (λ found. IfSome found (IsLegal game.now)) }
{
    let words = format!(in alloc; ", {parent} {value} ")?;
    out.push_str(words.as_str())?;
    let prefix = with_end(alloc, before, value)?;
    let query = JEntry {
        kind: JKind::Query,
        parent,
        value,
    };
    if !is_new(journal.entries(), query) || !begin_within(whole_vars(game), prefix.as_slice()) {
        out.push_str("no question")?;
        return Ok(None);
    }
    let answer = answer(alloc, game, parent, value, prefix.as_slice(), journal)?;
    out.push_str(answer_words(alloc, &answer)?.as_str())?;
    if is_completed(&answer) {
        Ok(Some(prefix))
    } else {
        Ok(None)
    }
}

fn answer(
    alloc: Global,
    game: &Game,
    parent: u32,
    value: i64,
    prefix: &[i64],
    journal: &mut Journal,
) -> Result<Result<Legality, LegalFault>, Memory>
    requires lawful { IsLawful game.now journal.old.entries }
    requires named { prefix.now ≡ (position_of journal.old.entries parent).prefix ++ value ∷ [] }
    requires new { IsNewQuestion game.now journal.old.entries parent (Some value) }
    requires within { IsPrefix game.now prefix.now }
    ensures lawful { OnOk result (IsLawful game.now journal.new.entries) }
    ensures legal { IfOk result (λ answer. IsOkAnd answer IsCompletion → IsLegal game.now prefix.now) }
{
    let bx = box_of_prefix(alloc, game, prefix)?;
    let named = NamedPrefix {
        parent,
        value: Some(value),
    };
    Ok(legal(alloc, game, &bx, named, journal))
}
