ghost use Rattle.std.specs.Prelude.{◌≡◌, ◌≢◌, ◌∷◌, List, IfOk, IfErr};
ghost use Rattle.qm_lex.specs.declared.place.Place.{Place};
ghost use Rattle.qm_parse.specs.declared.word.Symbol.{Symbol};
ghost use Rattle.qm_parse.specs.Reading.{empty_draft, finished, leaves, read, start};

use crate::ast::Ast;
use crate::automaton::{expected, next_state, wanted};
use crate::draft::Draft;
use crate::names::Names;
use crate::note::note;
use crate::stage::{Seen, Stage, State};
use crate::unread::Unread;
use crate::word::{Symbol, Word};
use qm_lex::Place;
use std::alloc::Global;

/// Whether the word is a number that is no fraction of 128 bits.
#[tactic(auto, unfolding(crate::specs::Reading::leaves))]
fn leaves(word: &Word) -> bool
    ensures { result ≡ leaves word.now }
{
    match word {
        Word::Number(number) => number.is_none(),
        _ => false,
    }
}

/// The state before the first symbol.
#[tactic(auto, unfolding(crate::specs::Reading::start))]
fn start() -> State
    ensures { result ≡ start }
{
    State {
        stage: Stage::Start,
        seen: Seen {
            uncertainty: false,
            bounds: false,
            generals: false,
            binaries: false,
            exists: false,
            all: false,
            order: false,
        },
    }
}

/// The tree behind END; else `Expected` at the end of the text.
#[tactic(auto, unfolding(crate::specs::Reading::finished))]
fn finished(stage: Stage, draft: Draft, end: Place) -> Result<Ast, Unread>
    ensures { result ≡ finished stage draft end }
{
    match stage {
        Stage::Ended => Ok(draft.ast),
        _ => Err(Unread::Expected(end, wanted(stage))),
    }
}

/// Takes one symbol, and hands out the state behind it. `Expected` where the symbol may not follow, `Number` where its
/// number leaves, `Memory` where there is none for what it adds.
#[tactic(auto, unfolding(crate::specs::Reading::read))]
fn advance(alloc: Global, state: State, draft: &mut Draft, symbol: &Symbol) -> Result<State, Unread>
    ensures ok { IfOk result (λ next. (symbols : List Symbol) (end : Place) →
        read state draft.old (symbol.now ∷ symbols) end ≡ read next draft.new symbols end) }
    ensures err { IfErr result (λ fault. fault ≢ Unread.Memory → (symbols : List Symbol) (end : Place) →
        read state draft.old (symbol.now ∷ symbols) end ≡ Err fault) }
{
    let Some(next) = next_state(state, symbol) else {
        return Err(Unread::Expected(symbol.place, expected(state.stage, symbol)));
    };
    if leaves(&symbol.word) {
        return Err(Unread::Number(symbol.place));
    }
    note(alloc, draft, state, symbol)?;
    Ok(next)
}

/// The syntax tree of the symbols, or the first fault: `Expected` at the symbol, or the end of the text, that may not
/// follow, `Number` at a number that leaves. `Memory`, where there is none for the tree.
pub(crate) fn read(
    alloc: Global,
    names: Names,
    symbols: &[Symbol],
    end: Place,
) -> Result<Ast, Unread>
    ensures ok { IfOk result (λ ast. read start (empty_draft names) symbols.now end ≡ Ok ast) }
    ensures err { IfErr result (λ fault. fault ≢ Unread.Memory → read start (empty_draft names) symbols.now end ≡ Err fault) }
{
    let mut draft = Draft::new(alloc, names);
    let mut state = start();
    for symbol in symbols {
        state = advance(alloc, state, &mut draft, symbol)?;
    }
    finished(state.stage, draft, end)
}
